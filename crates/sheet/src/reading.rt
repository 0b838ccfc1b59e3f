// Reading a sheet, and the inputs and rows of one that has been read.
ghost use Rattle.std.specs.Prelude.{◌≡◌, ◌<◌, MatchOption, Ok};
ghost use Rattle.scan.specs.Scan.{chunk};
ghost use Rattle.sheet.specs.Format.{Means, Names, Proper};
ghost use Rattle.sheet.specs.Inputs.{input_at, input_in};
ghost use Rattle.sheet.specs.Rows.{row_at, row_in};
ghost use Rattle.sheet.specs.Sheets.{sheet_of, Width, NoWidth};
ghost use Rattle.sheet.specs.Views.{laid, seen, seen_in};

use crate::inputs::read_input;
use crate::refusals::Refusal;
use crate::views::{Layout, Sheet};
use machine::{Input, Row};

impl<'a> Sheet<'a> {
    /// Reads a sheet: its parts, or the first rule of format that it breaks.
    pub fn read(bytes: &'a [u8]) -> Result<Sheet<'a>, Refusal>
        ensures value { seen_in result ≡ sheet_of bytes.now }
        ensures meaning { Means bytes.now (seen_in result) }
    {
        Sheet::checked(bytes)
    }

    // Lays out the parts, and reads every input and every row.
    fn checked(bytes: &'a [u8]) -> Result<Sheet<'a>, Refusal>
        ensures { seen_in result ≡ sheet_of bytes.now }
    {
        let layout = Layout::open(bytes)?;
        layout.check_inputs()?;
        layout.check_rows()?;
        Ok(Sheet {
            variables: layout.variables,
            input_count: layout.input_count,
            places: layout.places,
            inputs: layout.inputs,
            rows: layout.rows,
            table: layout.table,
        })
    }

    /// The input with this number.
    pub fn input(&self, number: usize) -> Input
        requires { number < self.now.input_count }
        ensures value { input_at (seen self.now) number ≡ Ok result }
        ensures stated { result ≡ input_in (chunk 9 number (seen self.now).inputs.bytes) }
        ensures proper { Proper result }
    {
        let (records, _) = self.inputs.bytes.as_chunks::<9>();
        match read_input(number, &records[number]) {
            Ok(input) => input,
            Err(_) => unreachable(),
        }
    }

    /// The row at this place.
    pub fn row(&self, place: usize) -> Row
        requires { place < self.now.places }
        ensures value { row_at (seen self.now) place ≡ Ok result }
        ensures stated { result ≡ row_in (chunk 12 place (seen self.now).rows.bytes) }
        ensures names { Names self.now.variables self.now.input_count self.now.places result }
    {
        self.layout().stated_row(place)
    }

    /// How many bytes a cell has, where the table is as long as a flag and a cell for each variable
    /// at each place: from 1 to 64, and at most one such number.
    pub fn cell_width(&self) -> Option<usize>
        ensures { MatchOption result (NoWidth (seen self.now)) (Width (seen self.now)) }
    {
        self.layout().cell_width()
    }

    /// The same sheet, of which is known only how it is laid out.
    pub fn layout(&self) -> Layout<'a>
        ensures { laid result ≡ seen self.now }
    {
        Layout {
            variables: self.variables,
            input_count: self.input_count,
            places: self.places,
            inputs: self.inputs,
            rows: self.rows,
            table: self.table,
        }
    }
}
