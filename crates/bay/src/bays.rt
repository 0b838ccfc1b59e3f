// What a bay holds, and what each keeps to.
ghost use Rattle.std.specs.Prelude.{◌≡◌, true};
ghost use Rattle.machine.specs.Runs.{start};
ghost use Rattle.machine.specs.Steps.{shown};
ghost use Rattle.bay.specs.Calm.{CanTrap, settled};
ghost use Rattle.bay.specs.Tables.{held, held_inputs, held_settings};

use crate::Mode;
use crate::inputs::HeldInput;
use crate::table::Table;
use machine::{MAX_INPUTS, MAX_PLACES, Row, State};

mod calls;
mod offers;
mod views;

/// A bay: the routine that it holds, its settings, and the state of its run. Whoever holds one holds a routine that
/// no reading can bring to a trap, neither from its start nor from where it is.
#[derive(Clone, Copy)]
pub struct Bay {
    mode: Mode,
    variables: usize,
    inputs: Table<HeldInput, MAX_INPUTS>,
    rows: Table<Row, MAX_PLACES>,
    state: State,
    ghost set: { settled (held_inputs inputs) (held_settings inputs) ≡ true },
    ghost safe: { CanTrap (held_inputs inputs) (held rows) start → ⊥ },
    ghost calm: { CanTrap (held_inputs inputs) (held rows) (shown state) → ⊥ },
}
