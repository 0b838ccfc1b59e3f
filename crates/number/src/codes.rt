// Operations and relations by their codes, the bytes that stand for them in a sheet.
ghost use Rattle.std.specs.Prelude.{◌≡◌};
ghost use Rattle.number.specs.Codes.{op_code, op_coded, relation_code, relation_coded};
ghost use Rattle.number.specs.Means.{Reads};

use crate::{Op, Relation};

/// A code that no operation or relation has.
#[derive(Clone, Copy, PartialEq, Eq, Debug)]
pub struct UnknownCode(pub u8);

/// The operation of a code from 0 to 7.
impl TryFrom<u8> for Op {
    type Error = UnknownCode;

    ghost try_from_gives = { Reads op_code op_coded };

    fn try_from(code: u8) -> Result<Op, UnknownCode> {
        match code {
            0 => Ok(Op::Add),
            1 => Ok(Op::Sub),
            2 => Ok(Op::Mul),
            3 => Ok(Op::Div),
            4 => Ok(Op::IsLess),
            5 => Ok(Op::IsAtMost),
            6 => Ok(Op::IsEqual),
            7 => Ok(Op::IsUnequal),
            _ => Err(UnknownCode(code)),
        }
    }
}

impl From<Op> for u8 {
    ghost from_gives = { λ op code. code ≡ op_code op };

    fn from(op: Op) -> u8 {
        op as u8
    }
}

/// The relation of a code from 0 to 5.
impl TryFrom<u8> for Relation {
    type Error = UnknownCode;

    ghost try_from_gives = { Reads relation_code relation_coded };

    fn try_from(code: u8) -> Result<Relation, UnknownCode> {
        match code {
            0 => Ok(Relation::Less),
            1 => Ok(Relation::AtMost),
            2 => Ok(Relation::Equal),
            3 => Ok(Relation::Unequal),
            4 => Ok(Relation::Greater),
            5 => Ok(Relation::AtLeast),
            _ => Err(UnknownCode(code)),
        }
    }
}

impl From<Relation> for u8 {
    ghost from_gives = { λ relation code. code ≡ relation_code relation };

    fn from(relation: Relation) -> u8 {
        relation as u8
    }
}
