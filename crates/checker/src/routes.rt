// The rows and inputs of a sheet that has been read, as those of its routine.
ghost use Rattle.std.specs.Prelude.{◌≡◌, ◌<◌};
ghost use Rattle.machine.specs.Runs.{row_on};
ghost use Rattle.sheet.specs.Format.{Names};
ghost use Rattle.sheet.specs.Views.{seen};
ghost use Rattle.rules.specs.Tables.{routine_of};
ghost use Rattle.rules.specs.Ways.{input_on};

use machine::{Input, Row};
use sheet::Sheet;

// The row at `place`.
pub fn row_on(sheet: &Sheet<'_>, place: usize) -> Row
    requires { place < sheet.now.places }
    ensures value { result ≡ row_on (routine_of (seen sheet.now)).rows place }
    ensures names { Names sheet.now.variables sheet.now.input_count sheet.now.places result }
{
    sheet.row(place)
}

// The input with this number.
pub fn input_on(sheet: &Sheet<'_>, number: usize) -> Input
    requires { number < sheet.now.input_count }
    ensures { result ≡ input_on (routine_of (seen sheet.now)).inputs number }
{
    sheet.input(number)
}
