// The commands, for any domain whose values can be written.
use domain::{Domain, Worked};
use notation::{Notation, parsed};
use number::{Op, Relation};
use std::fmt;

/// What a command answers.
#[derive(Drop)]
pub enum Answer<D> {
    /// A value, the zero warning and the range warning.
    Worked(Worked<D>),
    /// A value, if there is one.
    Value(Option<D>),
    Covers(bool),
    Number(usize),
}

impl<D: Notation> fmt::Display for Answer<D> {
    fn fmt<W: fmt::Write>(&self, f: &mut fmt::Formatter<W>) -> fmt::Result {
        match self {
            Answer::Worked((value, zero, range)) => {
                value.write(f)?;
                if *zero {
                    write!(f, " zero")?;
                }
                if *range {
                    write!(f, " range")?;
                }
                Ok(())
            }
            Answer::Value(Some(value)) => value.write(f),
            Answer::Value(None) => write!(f, "none"),
            Answer::Covers(true) => write!(f, "yes"),
            Answer::Covers(false) => write!(f, "no"),
            Answer::Number(number) => write!(f, "{number}"),
        }
    }
}

/// What the words of a command after the domain's name answer, if they are understood.
pub(crate) fn answered<D: Notation>(words: &[&str]) -> Option<Answer<D>> {
    Some(match words {
        ["work", a, sign, b] => {
            let op = sign.parse::<Op>().ok()?;
            Answer::Worked(D::work(op, parsed::<D>(a)?, parsed::<D>(b)?))
        }
        ["narrow", a, sign, b] => {
            let relation = sign.parse::<Relation>().ok()?;
            Answer::Value(D::narrow(parsed::<D>(a)?, relation, parsed::<D>(b)?))
        }
        ["covers", a, b] => Answer::Covers(D::covers(parsed::<D>(a)?, parsed::<D>(b)?)),
        ["value", lo, hi] => Answer::Value(Some(D::value(lo.parse().ok()?, hi.parse().ok()?))),
        ["anything", ..] => Answer::Value(Some(D::anything())),
        ["read", bytes @ ..] => Answer::Value(read::<D>(bytes)?),
        ["blank", index] => Answer::Number(usize::from(D::blank(index.parse().ok()?))),
        ["width", ..] => Answer::Number(D::width()),
        _ => return None,
    })
}

// The value of a cell of these bytes, at most 64: so many fit in an array, and no memory is asked for.
fn read<D: Notation>(words: &[&str]) -> Option<Option<D>> {
    let mut cell = [0u8; 64];
    for (byte, word) in cell.iter_mut().zip(words) {
        *byte = word.parse().ok()?;
    }
    Some(D::read(cell.get(..words.len())?))
}
