// Rows, inputs and outcomes as people write them: variables are v0, v1, .. and places go by number.
ghost use Rattle.std.specs.Prelude.{Some};
ghost use Rattle.machine.specs.Words.{kind_word, input_words, outcome_words};

use crate::{Input, InputKind, Outcome, Row};
use std::fmt;

impl fmt::Display for Row {
    fn fmt<W: fmt::Write>(&self, f: &mut fmt::Formatter<W>) -> fmt::Result {
        match *self {
            Row::End => write!(f, "end"),
            Row::Put {
                target,
                value,
                next,
            } => write!(f, "v{target} := {value}, go to {next}"),
            Row::Take {
                target,
                input,
                next,
            } => { write!(f, "v{target} := input {input}, go to {next}") }
            Row::Work {
                target,
                op,
                left,
                right,
                next,
            } => { write!(f, "v{target} := v{left} {op} v{right}, go to {next}") }
            Row::Fork {
                relation,
                left,
                right,
                next,
                otherwise,
            } => {
                write!(
                    f,
                    "if v{left} {relation} v{right} go to {next} else {otherwise}"
                )
            }
        }
    }
}

impl fmt::Display for InputKind {
    ghost output = { λ kind. Some (kind_word kind) };

    fn fmt<W: fmt::Write>(&self, f: &mut fmt::Formatter<W>) -> fmt::Result {
        f.write_str(match self {
            InputKind::Reading => "reading",
            InputKind::Setting => "setting",
        })
    }
}

impl fmt::Display for Input {
    ghost output = { λ input. Some (input_words input) };

    fn fmt<W: fmt::Write>(&self, f: &mut fmt::Formatter<W>) -> fmt::Result {
        write!(f, "{} {}..{}", self.kind, self.lo, self.hi)
    }
}

impl fmt::Display for Outcome {
    ghost output = { λ outcome. Some (outcome_words outcome) };

    fn fmt<W: fmt::Write>(&self, f: &mut fmt::Formatter<W>) -> fmt::Result {
        match *self {
            Outcome::At { place } => write!(f, "at {place}"),
            Outcome::Ended => write!(f, "ended"),
            Outcome::Trapped { trap, place } => write!(f, "trap {trap} {place}"),
        }
    }
}
