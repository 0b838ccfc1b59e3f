// Views of a whole sheet: laid out, and read.
ghost use Rattle.sheet.specs.Sheets.{Fits};
ghost use Rattle.sheet.specs.Sound.{Sound, laid_out};

use crate::parts::Part;

/// A sheet that is laid out, by the counts of its head: its inputs and rows may be wrong.
#[derive(Clone, Copy)]
pub struct Layout<'a> {
    pub variables: usize,
    pub input_count: usize,
    pub places: usize,
    pub inputs: Part<'a>,
    pub rows: Part<'a>,
    pub table: Part<'a>,
    ghost fits: { Fits (laid_out variables input_count places inputs rows table) },
}

/// A sheet that has been read: the counts of its head, and its parts with their places. Whoever holds one holds a sheet
/// whose inputs and rows are right.
#[derive(Clone, Copy)]
pub struct Sheet<'a> {
    pub variables: usize,
    pub input_count: usize,
    pub places: usize,
    pub inputs: Part<'a>,
    pub rows: Part<'a>,
    pub table: Part<'a>,
    ghost sound: { Sound (laid_out variables input_count places inputs rows table) },
}
