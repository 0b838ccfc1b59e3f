// The layout of a sheet: its parts, before its inputs and rows are read.
ghost use Rattle.std.specs.Prelude.{◌≡◌, ◌<◌, ◌≤◌, MatchOption};
ghost use Rattle.scan.specs.Scan.{chunk};
ghost use Rattle.sheet.specs.Bytes.{AllBytes};
ghost use Rattle.sheet.specs.Inputs.{input_at, inputs_right};
ghost use Rattle.sheet.specs.Parts.{parts_of, sizes_right};
ghost use Rattle.sheet.specs.Regions.{region};
ghost use Rattle.sheet.specs.Rows.{row_at, row_in, rows_right};
ghost use Rattle.sheet.specs.Sheets.{Width, NoWidth};
ghost use Rattle.sheet.specs.Views.{laid, laid_in};

use crate::inputs::read_input;
use crate::parts::{Part, PartName, check_head, check_size, lay_out};
use crate::refusals::Refusal;
use crate::rows::{Counts, decode_row, read_row};
use crate::views::Layout;
use machine::{Input, Row};

// 9 bytes an input; 12 bytes a row, for 1 to 256 rows.
fn check_sizes(inputs: usize, input_part: Part<'_>, row_part: Part<'_>) -> Result<(), Refusal>
    requires { inputs ≤ 8 }
    ensures { result ≡ sizes_right inputs (region input_part.entry) (region row_part.entry) }
{
    if input_part.bytes.len() != 9 * inputs {
        return Err(Refusal::PartSize {
            part: PartName::Inputs.into(),
        });
    }
    let rows = row_part.bytes.len();
    if rows % 12 != 0 || rows < 12 || rows > 3072 {
        return Err(Refusal::PartSize {
            part: PartName::Rows.into(),
        });
    }
    Ok(())
}

impl<'a> Layout<'a> {
    /// Lays out the parts of a sheet, and looks no further.
    pub fn open(bytes: &'a [u8]) -> Result<Layout<'a>, Refusal>
        ensures { laid_in result ≡ parts_of bytes.now }
    {
        check_size(bytes)?;
        check_head(bytes)?;
        let inputs = lay_out(bytes, PartName::Inputs, 28)?;
        let rows = lay_out(bytes, PartName::Rows, inputs.at + inputs.bytes.len())?;
        let table = lay_out(bytes, PartName::Table, rows.at + rows.bytes.len())?;
        let variables = bytes[1] as usize;
        let input_count = bytes[2] as usize;
        check_sizes(input_count, inputs, rows)?;
        let places = rows.bytes.len() / 12;
        Ok(Layout {
            variables,
            input_count,
            places,
            inputs,
            rows,
            table,
        })
    }

    /// The input with this number, or why it is none.
    pub fn input(&self, number: usize) -> Result<Input, Refusal>
        requires { number < self.now.input_count }
        ensures { result ≡ input_at (laid self.now) number }
    {
        let (records, _) = self.inputs.bytes.as_chunks::<9>();
        read_input(number, &records[number])
    }

    /// The row at this place, or why it is none.
    pub fn row(&self, place: usize) -> Result<Row, Refusal>
        requires { place < self.now.places }
        ensures { result ≡ row_at (laid self.now) place }
    {
        let counts = Counts {
            variables: self.variables,
            inputs: self.input_count,
            places: self.places,
        };
        let (records, _) = self.rows.bytes.as_chunks::<12>();
        read_row(counts, place, &records[place])
    }

    /// What the bytes of the row at this place say, whether or not they are right; `row` tells that.
    pub fn stated_row(&self, place: usize) -> Row
        requires { place < self.now.places }
        ensures value { result ≡ row_in (chunk 12 place (laid self.now).rows.bytes) }
        ensures bytes { AllBytes (chunk 12 place (laid self.now).rows.bytes) }
    {
        let (records, _) = self.rows.bytes.as_chunks::<12>();
        decode_row(&records[place])
    }

    /// How many bytes a cell has, where the table is as long as a flag and a cell for each variable
    /// at each place: from 1 to 64, and at most one such number.
    pub fn cell_width(&self) -> Option<usize>
        ensures { MatchOption result (NoWidth (laid self.now)) (Width (laid self.now)) }
    {
        let size = self.table.bytes.len();
        (1..65).find(|&width| size == self.places * (1 + self.variables * width))
    }

    // Reads every input.
    pub(crate) fn check_inputs(&self) -> Result<(), Refusal>
        ensures { result ≡ inputs_right (laid self.now) }
    {
        // By number, which `input` takes.
        for number in 0..self.input_count {
            self.input(number)?;
        }
        Ok(())
    }

    // Reads every row.
    pub(crate) fn check_rows(&self) -> Result<(), Refusal>
        ensures { result ≡ rows_right (laid self.now) }
    {
        // By number, which `row` takes.
        for place in 0..self.places {
            self.row(place)?;
        }
        Ok(())
    }
}
