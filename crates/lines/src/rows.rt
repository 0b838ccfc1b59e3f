// A row as text, in words that blanks separate.
ghost use Rattle.std.specs.Prelude.{◌<◌, IfOk};
ghost use Rattle.lines.specs.Known.{Known};

use crate::mistakes::Reason;
use machine::Row;
use notation::{integer, number};
use number::{Op, Relation};

/// How many variables and inputs there are to name.
#[derive(Clone, Copy)]
pub struct Counts {
    pub variables: usize,
    pub inputs: usize,
}

impl Counts {
    // The variable that a word names.
    fn variable(self, word: &str) -> Result<u8, Reason>
        ensures { IfOk result (λ x. x < self.variables) }
    {
        let digits = word.strip_prefix('v').ok_or(Reason::VariableForm)?;
        let variable = number(digits).ok_or(Reason::VariableForm)?;
        if variable >= self.variables {
            return Err(Reason::VariableMissing {
                count: self.variables,
            });
        }
        u8::try_from(variable).or(Err(Reason::VariableForm))
    }

    // The input that a word names.
    fn input(self, word: &str) -> Result<u8, Reason>
        ensures { IfOk result (λ k. k < self.inputs) }
    {
        let input = number(word).ok_or(Reason::RowForm)?;
        if input >= self.inputs {
            return Err(Reason::InputMissing { count: self.inputs });
        }
        u8::try_from(input).or(Err(Reason::RowForm))
    }
}

// The place that a word names; whether there is such a place is known when all rows are.
fn place(word: &str) -> Result<u8, Reason> {
    let place = number(word).ok_or(Reason::PlaceForm)?;
    u8::try_from(place).or(Err(Reason::PlaceForm))
}

// A word with the comma after it.
fn listed(word: &str) -> Result<&str, Reason> {
    word.strip_suffix(',').ok_or(Reason::RowForm)
}

/// The row that the words are. It names only variables and inputs that there are; its places are not looked at.
pub fn row_of(counts: Counts, words: &[&str]) -> Result<Row, Reason>
    ensures { IfOk result (Known counts.variables counts.inputs) }
{
    match words {
        ["end"] => Ok(Row::End),
        ["if", fork @ ..] => fork_of(counts, fork),
        [target, ":=", value @ ..] => assignment_of(counts, counts.variable(target)?, value),
        _ => Err(Reason::RowForm),
    }
}

// The row that sets `target` to what the words behind `:=` say.
fn assignment_of(counts: Counts, target: u8, words: &[&str]) -> Result<Row, Reason>
    requires { target < counts.variables }
    ensures { IfOk result (Known counts.variables counts.inputs) }
{
    match words {
        [value, go, to, next] => Ok(Row::Put {
            target,
            value: integer(listed(value)?).ok_or(Reason::Integer)?,
            next: way_of(go, to, next)?,
        }),
        ["input", input, go, to, next] => Ok(Row::Take {
            target,
            input: counts.input(listed(input)?)?,
            next: way_of(go, to, next)?,
        }),
        [left, op, right, go, to, next] => Ok(Row::Work {
            target,
            left: counts.variable(left)?,
            op: op.parse::<Op>().or(Err(Reason::Operation))?,
            right: counts.variable(listed(right)?)?,
            next: way_of(go, to, next)?,
        }),
        _ => Err(Reason::RowForm),
    }
}

// The fork that the words behind `if` say.
fn fork_of(counts: Counts, words: &[&str]) -> Result<Row, Reason>
    ensures { IfOk result (Known counts.variables counts.inputs) }
{
    let [left, relation, right, go, to, next, "else", otherwise] = words else {
        return Err(Reason::RowForm);
    };
    Ok(Row::Fork {
        left: counts.variable(left)?,
        relation: relation.parse::<Relation>().or(Err(Reason::Relation))?,
        right: counts.variable(right)?,
        next: way_of(go, to, next)?,
        otherwise: place(otherwise)?,
    })
}

// The place of the words `go to PLACE`.
fn way_of(go: &str, to: &str, next: &str) -> Result<u8, Reason> {
    if go != "go" || to != "to" {
        return Err(Reason::RowForm);
    }
    place(next)
}
