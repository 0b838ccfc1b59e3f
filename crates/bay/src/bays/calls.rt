// Starting, stopping, setting and stepping what is held.
ghost use Rattle.std.specs.Prelude.{◌≡◌, IfOk};
ghost use Rattle.std.specs.List.{slice_get};
ghost use Rattle.machine.specs.Inputs.{allows};
ghost use Rattle.machine.specs.Steps.{after_step, outcome_of, shown, MayTake, Told};
ghost use Rattle.bay.specs.Calls.{Happens, begin, change as changing, step as stepping, stop as stopping};
ghost use Rattle.bay.specs.Model.{mode_after, row_now, set_of, set_to, start_of, step_of, stop_of, taken_by, with_mode, with_state};
ghost use Rattle.bay.specs.Tables.{held_inputs};
ghost use Rattle.bay.specs.Views.{view, finished, stepped, NoTrap, ToldOf};

use super::Bay;
use crate::Mode;
use crate::inputs::HeldInput;
use machine::{Input, InputKind, Outcome, Row, State};
use sheet::Refusal;

// Whether the set of an input has this integer.
fn is_allowed(input: Input, value: i32) -> bool
    ensures { result ≡ allows input value }
{
    (input.lo..=input.hi).contains(&value)
}

impl Bay {
    /// Runs the routine that is held, from place 0 with all variables 0.
    pub fn start(&mut self) -> Result<(), Refusal>
        ensures value { result ≡ (start_of (view self.old)).0 }
        ensures after { view self.new ≡ (start_of (view self.old)).1 }
        ensures rule { Happens (view self.old) begin (finished result) (view self.new) }
    {
        match self.mode {
            Mode::Empty => Err(Refusal::NothingHeld),
            Mode::Running => Err(Refusal::Running),
            Mode::Held => {
                self.mode = Mode::Running;
                self.state = State::start();
                Ok(())
            }
        }
    }

    /// Holds the routine that runs, where it is.
    pub fn stop(&mut self) -> Result<(), Refusal>
        ensures value { result ≡ (stop_of (view self.old)).0 }
        ensures after { view self.new ≡ (stop_of (view self.old)).1 }
        ensures rule { Happens (view self.old) stopping (finished result) (view self.new) }
    {
        match self.mode {
            Mode::Empty => Err(Refusal::NothingHeld),
            Mode::Held => Err(Refusal::NotRunning),
            Mode::Running => {
                self.mode = Mode::Held;
                Ok(())
            }
        }
    }

    /// Changes the setting of the input with this number.
    pub fn set(&mut self, number: usize, value: i32) -> Result<(), Refusal>
        ensures value { result ≡ (set_of number value (view self.old)).0 }
        ensures after { view self.new ≡ (set_of number value (view self.old)).1 }
        ensures rule { Happens (view self.old) (changing number value) (finished result) (view self.new) }
    {
        match self.mode {
            Mode::Empty => Err(Refusal::NothingHeld),
            _ => self.change(number, value),
        }
    }

    /// Makes one step. A take uses the setting of its input, or the reading given; other rows ignore it.
    /// The answer is the new place, that the routine has ended, and never a trap.
    pub fn step(&mut self, reading: i32) -> Result<Outcome, Refusal>
        ensures value { result ≡ (step_of reading (view self.old)).0 }
        ensures after { view self.new ≡ (step_of reading (view self.old)).1 }
        ensures rule { Happens (view self.old) (stepping reading) (stepped result) (view self.new) }
        ensures quiet { IfOk result NoTrap }
    {
        self.try_step(reading)
    }

    // Changes a setting of the routine that is held.
    fn change(&mut self, number: usize, value: i32) -> Result<(), Refusal>
        ensures value { result ≡ (set_to (view self.old) number value (slice_get (held_inputs self.old.inputs) number)).0 }
        ensures after { view self.new ≡ (set_to (view self.old) number value (slice_get (held_inputs self.old.inputs) number)).1 }
    {
        let Some(held) = self.inputs.get(number) else {
            return Err(Refusal::NoSetting);
        };
        match held.input.kind {
            InputKind::Reading => Err(Refusal::NoSetting),
            InputKind::Setting if is_allowed(held.input, value) => {
                self.inputs.set(
                    number,
                    HeldInput {
                        setting: value,
                        ..held
                    },
                );
                Ok(())
            }
            InputKind::Setting => Err(Refusal::SettingOutside),
        }
    }

    // The row at the place; a place that is not held ends.
    fn row(&self) -> Row
        ensures { result ≡ row_now (view self.now) }
    {
        self.rows.get(self.state.place()).unwrap_or(Row::End)
    }

    // What the row takes: the setting of its input, or the reading given, if that is in the set.
    fn taken_by(&self, row: Row, reading: i32) -> Result<i32, Refusal>
        ensures { result ≡ taken_by (view self.now) reading row }
    {
        let Row::Take { input: number, .. } = row else {
            return Ok(reading);
        };
        let Some(held) = self.inputs.get(usize::from(number)) else {
            return Err(Refusal::ReadingOutside);
        };
        match held.input.kind {
            InputKind::Setting => Ok(held.setting),
            InputKind::Reading if is_allowed(held.input, reading) => Ok(reading),
            InputKind::Reading => Err(Refusal::ReadingOutside),
        }
    }

    // Apart from `step`, whose rule needs what the machine told of the step.
    fn try_step(&mut self, reading: i32) -> Result<Outcome, Refusal>
        ensures value { result ≡ (step_of reading (view self.old)).0 }
        ensures after { view self.new ≡ (step_of reading (view self.old)).1 }
        ensures told { IfOk result (λ o. ToldOf reading (view self.old) o (view self.new).state) }
    {
        match self.mode {
            Mode::Empty => Err(Refusal::NothingHeld),
            Mode::Held => Err(Refusal::NotRunning), // what does not run takes no step
            Mode::Running => {
                let row = self.row();
                let taken = self.taken_by(row, reading)?;
                Ok(self.follow(row, taken))
            }
        }
    }

    // Takes the step of the row at the place, where a take takes an integer of its set.
    fn follow(&mut self, row: Row, taken: i32) -> Outcome
        requires here { row ≡ row_now (view self.old) }
        requires may { MayTake (held_inputs self.old.inputs) row taken }
        ensures value { result ≡ outcome_of row (shown self.old.state) taken }
        ensures after { view self.new ≡ with_state (after_step row (shown self.old.state) taken) (with_mode (mode_after result) (view self.old)) }
        ensures told { Told (held_inputs self.old.inputs) row (shown self.old.state) taken result (view self.new).state }
    {
        let outcome = self.state.step(row, taken);
        self.mode = mode_after(outcome);
        outcome
    }
}

// A routine goes on running at a place; after an end or a trap it is held.
fn mode_after(outcome: Outcome) -> Mode
    ensures { result ≡ mode_after outcome }
{
    match outcome {
        Outcome::At { .. } => Mode::Running,
        Outcome::Ended | Outcome::Trapped { .. } => Mode::Held,
    }
}
