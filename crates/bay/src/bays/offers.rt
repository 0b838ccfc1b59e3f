// Offering a sheet.
ghost use Rattle.std.specs.Prelude.{◌≡◌, true, map};
ghost use Rattle.machine.specs.Runs.{start};
ghost use Rattle.sheet.specs.Views.{seen};
ghost use Rattle.rules.specs.Faults.{Meets};
ghost use Rattle.rules.specs.Tables.{routine_of, verdict_of};
ghost use Rattle.bay.specs.Calls.{Happens, offer as offering};
ghost use Rattle.bay.specs.Calm.{CanTrap, settled};
ghost use Rattle.bay.specs.Model.{holding, offer_after, offer_answer};
ghost use Rattle.bay.specs.Views.{offered, view};

use super::Bay;
use crate::Mode;
use checker::taken;
use domain::Domain;
use machine::State;
use sheet::{Refusal, Sheet};

impl Bay {
    /// Checks a sheet in a domain. Taken, the bay holds its routine at the start, with each setting at its lo, and the
    /// answer is its number of places; refused, the bay is as it was.
    pub fn offer<D: Domain>(&mut self, bytes: &[u8]) -> Result<usize, Refusal>
        ensures value { Meets result (offer_answer (verdict_of D.Domain.ops) bytes.now (view self.old)) }
        ensures after { view self.new ≡ offer_after (verdict_of D.Domain.ops) bytes.now (view self.old) }
        ensures rule { Happens (view self.old) (offering (verdict_of D.Domain.ops) bytes.now) (offered result) (view self.new) }
    {
        if self.mode == Mode::Running {
            return Err(Refusal::Running);
        }
        let sheet = taken::<D>(bytes)?;
        self.hold(&sheet);
        Ok(sheet.places)
    }

    // Holds the routine of a sheet that has been taken.
    fn hold(&mut self, sheet: &Sheet<'_>)
        requires settled { settled (routine_of (seen sheet.now)).inputs (map (λ i. i.lo) (routine_of (seen sheet.now)).inputs) ≡ true }
        requires safe { CanTrap (routine_of (seen sheet.now)).inputs (routine_of (seen sheet.now)).rows start → ⊥ }
        ensures { view self.new ≡ holding (seen sheet.now) }
    {
        self.inputs.fill(sheet);
        self.rows.fill(sheet);
        self.variables = sheet.variables;
        self.state = State::start();
        self.mode = Mode::Held;
    }
}
