// The state of a run: a place, and an integer for each variable.
ghost use Rattle.std.specs.Prelude.{◌≡◌, List, set, slice_set};
ghost use Rattle.machine.specs.Imp.{look_up};
ghost use Rattle.machine.specs.Runs.{at, start as start_spot};
ghost use Rattle.machine.specs.Steps.{shown, placed, changed, outcome_of, after_step, ActFits, Told};
ghost use Rattle.machine.specs.declared.Input.{Input};
ghost use Rattle.machine.specs.declared.states.Outcome.TheVariants.{At};

use crate::{Act, MAX_VARIABLES, Row};
use number::Trap;

/// A state of a run. A variable that is not there is 0, and to set it changes nothing.
#[derive(Clone, Copy)]
pub struct State {
    place: u8,
    values: [i32; MAX_VARIABLES],
}

/// How a step comes out: at the next place, at the end of the run, or with a trap at its place.
#[derive(Clone, Copy, PartialEq, Eq, Debug)]
pub enum Outcome {
    At { place: usize },
    Ended,
    Trapped { trap: Trap, place: usize },
}

impl State {
    /// Where a run starts: at place 0, with every variable 0.
    pub fn start() -> State
        ensures { shown result ≡ start_spot }
    {
        State {
            place: 0,
            values: [0; MAX_VARIABLES],
        }
    }

    pub fn place(&self) -> usize
        ensures { result ≡ (shown self.now).place }
    {
        usize::from(self.place)
    }

    /// The value of variable `x`.
    pub fn value(&self, x: usize) -> i32
        ensures { result ≡ look_up (shown self.now).locals x }
    {
        self.values.get(x).copied().unwrap_or(0)
    }

    /// Takes the step of `row`, where a take takes `taken`, and says how it came out.
    /// An end or a trap leaves the state as it was.
    pub fn step(&mut self, row: Row, taken: i32) -> Outcome
        ensures outcome { result ≡ outcome_of row (shown self.old) taken }
        ensures state { shown self.new ≡ after_step row (shown self.old) taken }
        ensures told { (inputs : List Input) → Told inputs row (shown self.old) taken result (shown self.new) }
    {
        let (left, right) = row.operands();
        let a = self.value(usize::from(left));
        let b = self.value(usize::from(right));
        self.follow(row.act(a, b, taken))
    }

    // Does what an act says, and says how that came out. An end or a trap leaves the state as it was.
    fn follow(&mut self, act: Result<Act, Trap>) -> Outcome
        ensures outcome { result ≡ placed (shown self.old).place act }
        ensures state { shown self.new ≡ changed (shown self.old) act }
        ensures fits { ActFits act }
    {
        match act {
            Ok(Act::Stop) => Outcome::Ended,
            Ok(
                Act::Assign {
                    target,
                    value,
                    next,
                },
            ) => {
                self.assign(usize::from(target), value);
                self.go(next)
            }
            Ok(Act::Go { next }) => self.go(next),
            Err(trap) => Outcome::Trapped {
                trap,
                place: self.place(),
            },
        }
    }

    fn go(&mut self, next: u8) -> Outcome
        ensures outcome { result ≡ At next }
        ensures state { shown self.new ≡ at next self.old.values }
    {
        self.place = next;
        Outcome::At {
            place: usize::from(next),
        }
    }

    fn assign(&mut self, target: usize, value: i32)
        ensures values { self.new.values ≡ slice_set self.old.values target value }
        ensures place { self.new.place ≡ self.old.place }
    {
        // An index: through `get_mut` it was not proved what the variables are then.
        if target < MAX_VARIABLES {
            self.values[target] = value;
        }
    }
}
