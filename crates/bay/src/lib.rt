// The bay: it holds one routine at a time, and is driven by six calls: offer, start, set, step, stop and show.
// specs/ has the model of the bay and the rules of the calls; what is proved of every succession of calls is the
// contract of `stands`.
#![tactic(auto)]

ghost use Rattle.bay.specs.Stands.{Stands};

use layers::pile::Domains;

mod bays;
mod inputs;
mod rows;
mod table;
mod words;

pub use bays::Bay;

/// Whether the bay holds a routine, and whether that runs.
#[derive(Clone, Copy, PartialEq, Eq, Debug)]
pub enum Mode {
    Empty,
    Held,
    Running,
}

/// What a bay shows: whether its routine runs, the place it is at, and the value of one variable.
#[derive(Clone, Copy, PartialEq, Eq, Debug)]
pub struct Shown {
    pub running: bool,
    pub place: usize,
    pub value: i32,
}

/// For every collection of lawful domains and every pile over them: a routine that is taken reaches no state that its
/// table does not describe and none that traps; no succession of calls on a bay ever answers a trap; and what is taken
/// in one pile is taken in its pair with any other that says "anything" throughout.
pub fn stands<F: Domains>()
    ensures { Stands F.Domains.doms }
{}
