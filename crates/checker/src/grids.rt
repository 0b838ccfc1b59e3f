// A sheet whose table is laid out for cells of one width.
ghost use Rattle.std.specs.Prelude.{◌≡◌, ◌+◌, ◌*◌, ◌<◌, ◌≤◌, length};

use sheet::Sheet;

/// A sheet with cells of `width` bytes: each entry has a flag and a cell for each variable.
#[derive(Clone, Copy)]
pub struct Grid<'a> {
    pub sheet: Sheet<'a>,
    pub width: usize,
    pub entry: usize,
    ghost narrow: { width ≤ 64 },
    ghost sized: { entry ≡ 1 + sheet.variables * width },
    ghost whole: { length sheet.table.bytes.now ≡ sheet.places * entry },
}

/// The entry of a grid at a place.
#[derive(Clone, Copy)]
pub struct Entry<'g, 'a> {
    pub grid: &'g Grid<'a>,
    pub place: usize,
    ghost within: { place < grid.now.sheet.places },
}

/// Two variables of an entry, which its row works on or compares.
#[derive(Clone, Copy)]
pub struct Operands<'g, 'a> {
    pub entry: Entry<'g, 'a>,
    pub left: u8,
    pub right: u8,
    ghost left_there: { left < entry.grid.now.sheet.variables },
    ghost right_there: { right < entry.grid.now.sheet.variables },
}
