// Making a bay, and looking at it.
ghost use Rattle.std.specs.Prelude.{◌≡◌};
ghost use Rattle.bay.specs.Calls.{Happens, show as showing};
ghost use Rattle.bay.specs.Model.{nothing, show_of};
ghost use Rattle.bay.specs.Views.{view, told};

use super::Bay;
use crate::inputs::HeldInput;
use crate::table::Table;
use crate::{Mode, Shown};
use machine::{Input, InputKind, Row, State};
use sheet::Refusal;

impl Bay {
    /// A bay that holds nothing.
    pub fn new() -> Bay
        ensures { view result ≡ nothing }
    {
        let input = Input {
            kind: InputKind::Reading,
            lo: 0,
            hi: 0,
        };
        Bay {
            mode: Mode::Empty,
            variables: 0,
            inputs: Table::new(HeldInput { input, setting: 0 }),
            rows: Table::new(Row::End),
            state: State::start(),
        }
    }

    /// Whether the routine runs, the place it is at, and the value of one variable.
    pub fn show(&self, variable: usize) -> Result<Shown, Refusal>
        ensures value { result ≡ show_of variable (view self.now) }
        ensures rule { Happens (view self.now) (showing variable) (told result) (view self.now) }
    {
        if self.mode == Mode::Empty {
            return Err(Refusal::NothingHeld);
        }
        if variable >= self.variables {
            return Err(Refusal::NoVariable);
        }
        Ok(Shown {
            running: self.mode == Mode::Running,
            place: self.state.place(),
            value: self.state.value(variable),
        })
    }
}
