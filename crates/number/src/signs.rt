// Operations and relations by their signs, and traps, as people write them.
ghost use Rattle.std.specs.Prelude.{◌≡◌, Some};
ghost use Rattle.number.specs.Signs.{op_sign, relation_sign, trap_word, SignRead};

use crate::{Op, Relation, Trap};
use std::fmt;
use std::str::FromStr;

/// A text that is no sign.
#[derive(Clone, Copy, PartialEq, Eq, Debug)]
pub struct UnknownSign;

impl Op {
    fn sign(self) -> &'static str
        ensures { result.now ≡ op_sign self }
    {
        match self {
            Op::Add => "+",
            Op::Sub => "-",
            Op::Mul => "*",
            Op::Div => "/",
            Op::IsLess => "<",
            Op::IsAtMost => "<=",
            Op::IsEqual => "=",
            Op::IsUnequal => "!=",
        }
    }
}

impl fmt::Display for Op {
    fn fmt<W: fmt::Write>(&self, f: &mut fmt::Formatter<W>) -> fmt::Result {
        f.write_str(self.sign())
    }
}

impl FromStr for Op {
    type Err = UnknownSign;

    ghost from_str_gives = { SignRead op_sign };

    fn from_str(sign: &str) -> Result<Op, UnknownSign> {
        match sign {
            "+" => Ok(Op::Add),
            "-" => Ok(Op::Sub),
            "*" => Ok(Op::Mul),
            "/" => Ok(Op::Div),
            "<" => Ok(Op::IsLess),
            "<=" => Ok(Op::IsAtMost),
            "=" => Ok(Op::IsEqual),
            "!=" => Ok(Op::IsUnequal),
            _ => Err(UnknownSign),
        }
    }
}

impl Relation {
    fn sign(self) -> &'static str
        ensures { result.now ≡ relation_sign self }
    {
        match self {
            Relation::Less => "<",
            Relation::AtMost => "<=",
            Relation::Equal => "=",
            Relation::Unequal => "!=",
            Relation::Greater => ">",
            Relation::AtLeast => ">=",
        }
    }
}

impl fmt::Display for Relation {
    fn fmt<W: fmt::Write>(&self, f: &mut fmt::Formatter<W>) -> fmt::Result {
        f.write_str(self.sign())
    }
}

impl FromStr for Relation {
    type Err = UnknownSign;

    ghost from_str_gives = { SignRead relation_sign };

    fn from_str(sign: &str) -> Result<Relation, UnknownSign> {
        match sign {
            "<" => Ok(Relation::Less),
            "<=" => Ok(Relation::AtMost),
            "=" => Ok(Relation::Equal),
            "!=" => Ok(Relation::Unequal),
            ">" => Ok(Relation::Greater),
            ">=" => Ok(Relation::AtLeast),
            _ => Err(UnknownSign),
        }
    }
}

impl fmt::Display for Trap {
    ghost output = { λ trap. Some (trap_word trap) };

    fn fmt<W: fmt::Write>(&self, f: &mut fmt::Formatter<W>) -> fmt::Result {
        f.write_str(match self {
            Trap::Zero => "zero",
            Trap::Range => "range",
        })
    }
}
