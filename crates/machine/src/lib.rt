// A routine: what its rows do and where its inputs come from.
// A row's number, from 0, is its place; variables and inputs go by their numbers too.
// A routine has 1 to 16 variables, 0 to 8 inputs and 1 to 256 places.
#![tactic(auto)]

ghost use Rattle.std.specs.Prelude.{◌≡◌};
ghost use Rattle.machine.specs.Kinds.{kind_code, kind_coded};
ghost use Rattle.number.specs.Means.{Reads};

mod states;
mod steps;
mod words;

use number::{Op, Relation, UnknownCode};
pub use states::{Outcome, State};
pub use steps::{Act, steps_are_faithful};

/// The most variables, inputs and places that a routine may have.
pub const MAX_VARIABLES: usize = 16;

pub const MAX_INPUTS: usize = 8;

pub const MAX_PLACES: usize = 256;

/// One row of a routine: what it does to the variables, and the place it goes to next.
#[derive(Clone, Copy, PartialEq, Eq, Debug)]
pub enum Row {
    /// Ends the run.
    End,
    /// Sets `target` to `value`.
    Put {
        target: u8,
        value: i32,
        next: u8,
    },
    /// Sets `target` to some integer of the set of `input`.
    Take {
        target: u8,
        input: u8,
        next: u8,
    },
    /// Sets `target` to `left op right`, worked on the values before the step.
    Work {
        target: u8,
        op: Op,
        left: u8,
        right: u8,
        next: u8,
    },
    /// Goes to `next` where `left relation right` holds, else to `otherwise`.
    Fork {
        relation: Relation,
        left: u8,
        right: u8,
        next: u8,
        otherwise: u8,
    },
}

/// Who gives an input's integers: the roof at each step, or the installer beforehand.
#[derive(Clone, Copy, PartialEq, Eq, Debug)]
pub enum InputKind {
    Reading,
    Setting,
}

/// The kind of a code: 0 for a reading, 1 for a setting.
impl TryFrom<u8> for InputKind {
    type Error = UnknownCode;

    ghost try_from_gives = { Reads kind_code kind_coded };

    fn try_from(code: u8) -> Result<InputKind, UnknownCode> {
        match code {
            0 => Ok(InputKind::Reading),
            1 => Ok(InputKind::Setting),
            _ => Err(UnknownCode(code)),
        }
    }
}

impl From<InputKind> for u8 {
    ghost from_gives = { λ kind code. code ≡ kind_code kind };

    fn from(kind: InputKind) -> u8 {
        kind as u8
    }
}

/// An input: its kind, and its set, the integers from `lo` to `hi`.
#[derive(Clone, Copy, PartialEq, Eq, Debug)]
pub struct Input {
    pub kind: InputKind,
    pub lo: i32,
    pub hi: i32,
}
