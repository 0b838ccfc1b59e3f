// The rows of a sheet that has been read.
ghost use Rattle.std.specs.Prelude.{◌≡◌};
ghost use Rattle.sheet.specs.Views.{seen};
ghost use Rattle.rules.specs.Tables.{routine_of};
ghost use Rattle.bay.specs.Tables.{held};

use crate::table::Table;
use checker::row_on;
use machine::{MAX_PLACES, Row};
use sheet::Sheet;

impl Table<Row, MAX_PLACES> {
    /// Holds the rows of a sheet that has been read.
    pub(crate) fn fill(&mut self, sheet: &Sheet<'_>)
        ensures { held self.new ≡ (routine_of (seen sheet.now)).rows }
    {
        self.clear();
        // A `for`: after `for_each` a proof knows nothing of what was pushed.
        for place in 0..sheet.places {
            self.push(row_on(sheet, place));
        }
    }
}
