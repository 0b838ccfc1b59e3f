// One step: what a row does to its operands.
ghost use Rattle.std.specs.Prelude.{◌≡◌, List, Ok};
ghost use Rattle.scan.specs.Scan.{and_then};
ghost use Rattle.machine.specs.declared.steps.Act.TheVariants.{Assign};
ghost use Rattle.machine.specs.declared.Input.{Input};
ghost use Rattle.machine.specs.Runs.{Spot};
ghost use Rattle.machine.specs.Steps.{act_of, operands as operands_of, RowFits, SetsFit, Faithful};

use crate::Row;
use number::{Op, Trap, difference, fitted, product, sum, truth};

/// What a step does: it ends the run, sets a variable and goes on, or only goes on.
#[derive(Clone, Copy, PartialEq, Eq, Debug)]
pub enum Act {
    Stop,
    Assign { target: u8, value: i32, next: u8 },
    Go { next: u8 },
}

impl Row {
    /// The variables that the row works on or compares; 0 and 0 where there are none.
    pub fn operands(self) -> (u8, u8)
        ensures { result ≡ operands_of self }
    {
        match self {
            Row::Work { left, right, .. } | Row::Fork { left, right, .. } => (left, right),
            _ => (0, 0),
        }
    }

    /// What the row does where its operands are `a` and `b` and a take takes `taken`.
    // One match over kind and operation, with no call of `apply` between: a rule of the project.
    pub fn act(self, a: i32, b: i32, taken: i32) -> Result<Act, Trap>
        ensures { result ≡ act_of self a b taken }
    {
        match self {
            Row::End => Ok(Act::Stop),
            Row::Put {
                target,
                value,
                next,
            } => Ok(Act::Assign {
                target,
                value,
                next,
            }),
            Row::Take { target, next, .. } => Ok(Act::Assign {
                target,
                value: taken,
                next,
            }),
            Row::Work { op: Op::Div, .. } if b == 0 => Err(Trap::Zero),
            Row::Work { op: Op::Div, .. } if a == i32::MIN && b == -1 => Err(Trap::Range),
            Row::Work {
                target,
                op: Op::Div,
                next,
                ..
            } => Ok(Act::Assign {
                target,
                value: a / b,
                next,
            }),
            Row::Work {
                target,
                op: Op::Add,
                next,
                ..
            } => assigned(target, fitted(sum(a, b)), next),
            Row::Work {
                target,
                op: Op::Sub,
                next,
                ..
            } => assigned(target, fitted(difference(a, b)), next),
            Row::Work {
                target,
                op: Op::Mul,
                next,
                ..
            } => assigned(target, fitted(product(a, b)), next),
            Row::Work {
                target,
                op: Op::IsLess,
                next,
                ..
            } => assigned(target, Ok(truth(a < b)), next),
            Row::Work {
                target,
                op: Op::IsAtMost,
                next,
                ..
            } => assigned(target, Ok(truth(a <= b)), next),
            Row::Work {
                target,
                op: Op::IsEqual,
                next,
                ..
            } => assigned(target, Ok(truth(a == b)), next),
            Row::Work {
                target,
                op: Op::IsUnequal,
                next,
                ..
            } => assigned(target, Ok(truth(a != b)), next),
            Row::Fork {
                relation,
                next,
                otherwise,
                ..
            } => {
                let next = if relation.holds(a, b) {
                    next
                } else {
                    otherwise
                };
                Ok(Act::Go { next })
            }
        }
    }
}

/// The acts of rows are exactly the steps that IMP's rules allow.
pub fn steps_are_faithful()
    ensures { (row : Row) (inputs : List Input) (s : Spot) → RowFits row → SetsFit inputs → Faithful row inputs s }
{}

// A variable set to a result, unless that is a trap.
fn assigned(target: u8, res: Result<i32, Trap>, next: u8) -> Result<Act, Trap>
    ensures { result ≡ and_then res (λ z. Ok (Assign target z next)) }
{
    res.map(|value| Act::Assign {
        target,
        value,
        next,
    })
}
