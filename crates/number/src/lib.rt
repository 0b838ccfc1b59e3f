// Integers of 32 bits: the eight operations and the six relations of a routine, each with its code,
// and one meaning of both over the unbounded integers (specs/Exact.antt).
// The machine's step and every domain are stated over that one meaning.
#![tactic(auto)]

ghost use Rattle.std.specs.Prelude.{◌≡◌, true, Decides};
ghost use Rattle.number.specs.Exact.{exact, worked, holds, mirrored as mirrored_relation, opposite as opposite_relation};
ghost use Rattle.number.specs.Means.{Answers, Mirrors, Opposes, Related, Examples};

mod codes;
mod signs;
mod wide;

pub use codes::UnknownCode;
pub use signs::UnknownSign;
pub use wide::{difference, fitted, product, quotient, sum, truth};

/// An operation of a work row, in the order of the codes. The last four compare, and give 1 or 0.
#[derive(Clone, Copy, PartialEq, Eq, Debug)]
pub enum Op {
    Add,
    Sub,
    Mul,
    Div,
    IsLess,
    IsAtMost,
    IsEqual,
    IsUnequal,
}

/// A relation of a fork row, in the order of the codes.
#[derive(Clone, Copy, PartialEq, Eq, Debug)]
pub enum Relation {
    Less,
    AtMost,
    Equal,
    Unequal,
    Greater,
    AtLeast,
}

/// Why a step has no result: the divisor is 0, or the result is no 32-bit integer.
#[derive(Clone, Copy, PartialEq, Eq, Debug)]
pub enum Trap {
    Zero,
    Range,
}

impl Op {
    /// What the operation gives before its range is looked at; a quotient by 0 means nothing, and is 0.
    pub fn exact(self, a: i32, b: i32) -> i64
        ensures { result ≡ exact self a b }
    {
        match self {
            Op::Add => sum(a, b),
            Op::Sub => difference(a, b),
            Op::Mul => product(a, b),
            Op::Div => quotient(a, b),
            Op::IsLess => truth(a < b) as i64,
            Op::IsAtMost => truth(a <= b) as i64,
            Op::IsEqual => truth(a == b) as i64,
            Op::IsUnequal => truth(a != b) as i64,
        }
    }

    /// Works the operation on two integers: its result, or the trap.
    /// The quotient drops the fraction, toward zero.
    pub fn apply(self, a: i32, b: i32) -> Result<i32, Trap>
        ensures value { result ≡ worked self a b }
        ensures means { Answers self a b result }
    {
        match self {
            Op::Add => fitted(sum(a, b)),
            Op::Sub => fitted(difference(a, b)),
            Op::Mul => fitted(product(a, b)),
            Op::Div if b == 0 => Err(Trap::Zero),
            Op::Div if a == i32::MIN && b == -1 => Err(Trap::Range),
            Op::Div => Ok(a / b),
            Op::IsLess => Ok(truth(a < b)),
            Op::IsAtMost => Ok(truth(a <= b)),
            Op::IsEqual => Ok(truth(a == b)),
            Op::IsUnequal => Ok(truth(a != b)),
        }
    }
}

impl Relation {
    /// Whether the relation holds between two integers.
    pub fn holds(self, a: i32, b: i32) -> bool
        ensures value { result ≡ holds self a b }
        ensures means { Decides result (Related self a b) }
    {
        match self {
            Relation::Less => a < b,
            Relation::AtMost => a <= b,
            Relation::Equal => a == b,
            Relation::Unequal => a != b,
            Relation::Greater => a > b,
            Relation::AtLeast => a >= b,
        }
    }

    /// The relation with its sides exchanged.
    pub fn mirrored(self) -> Relation
        ensures value { result ≡ mirrored_relation self }
        ensures means { Mirrors self result }
    {
        match self {
            Relation::Less => Relation::Greater,
            Relation::AtMost => Relation::AtLeast,
            Relation::Equal => Relation::Equal,
            Relation::Unequal => Relation::Unequal,
            Relation::Greater => Relation::Less,
            Relation::AtLeast => Relation::AtMost,
        }
    }

    /// The relation that holds exactly where this one does not.
    pub fn opposite(self) -> Relation
        ensures value { result ≡ opposite_relation self }
        ensures means { Opposes self result }
    {
        match self {
            Relation::Less => Relation::AtLeast,
            Relation::AtMost => Relation::Greater,
            Relation::Equal => Relation::Unequal,
            Relation::Unequal => Relation::Equal,
            Relation::Greater => Relation::AtMost,
            Relation::AtLeast => Relation::Less,
        }
    }
}

/// Works a few operations, and says whether each gave what it should: 7 ÷ −2 is −3, −2^31 ÷ −1 a range trap, and 1 ÷ 0 a zero trap.
pub fn examples_hold() -> bool
    ensures answers { result ≡ true }
    ensures means { Examples }
{
    Op::Div.apply(7, -2) == Ok(-3)
        && Op::Div.apply(i32::MIN, -1) == Err(Trap::Range)
        && Op::Div.apply(1, 0) == Err(Trap::Zero)
}
