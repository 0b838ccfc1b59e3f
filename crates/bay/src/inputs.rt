// The inputs of a sheet that has been read, with their settings.
ghost use Rattle.std.specs.Prelude.{◌≡◌, map};
ghost use Rattle.sheet.specs.Views.{seen};
ghost use Rattle.rules.specs.Tables.{routine_of};
ghost use Rattle.bay.specs.Tables.{held_inputs, held_settings};

use crate::table::Table;
use checker::input_on;
use machine::{Input, MAX_INPUTS};
use sheet::Sheet;

/// An input with its setting.
#[derive(Clone, Copy)]
pub struct HeldInput {
    pub input: Input,
    pub setting: i32,
}

impl Table<HeldInput, MAX_INPUTS> {
    /// Holds the inputs of a sheet that has been read, each setting at its lo.
    pub(crate) fn fill(&mut self, sheet: &Sheet<'_>)
        ensures inputs { held_inputs self.new ≡ (routine_of (seen sheet.now)).inputs }
        ensures settings { held_settings self.new ≡ map (λ i. i.lo) (routine_of (seen sheet.now)).inputs }
    {
        self.clear();
        // A `for`: after `for_each` a proof knows nothing of what was pushed.
        for number in 0..sheet.input_count {
            let input = input_on(sheet, number);
            let setting = input.lo;
            self.push(HeldInput { input, setting });
        }
    }
}
