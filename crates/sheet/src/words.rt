// Refusals, inputs and rows in words.
ghost use Rattle.std.specs.Prelude.{Some};
ghost use Rattle.sheet.specs.Words.{part_word, report_words};

use crate::parts::PartName;
use crate::refusals::{Refusal, Report};
use crate::views::Sheet;
use std::fmt;

impl fmt::Display for Refusal {
    fn fmt<W: fmt::Write>(&self, f: &mut fmt::Formatter<W>) -> fmt::Result {
        match *self {
            Refusal::SheetSize => write!(f, "a sheet has 28 to 1048576 bytes"),
            Refusal::HeadByte { byte } => write!(
                f,
                "byte {byte} of the head is wrong: {}",
                head_rule(byte)
            ),
            Refusal::PartExtent { part } => write!(
                f,
                "the {} part begins before the end of what precedes it, or ends past the sheet",
                part_named(part)
            ),
            Refusal::PartSize { part } => write!(
                f,
                "the {} part is not as long as its records: 9 bytes an input, 12 bytes a row, 1 to 256 rows",
                part_named(part)
            ),
            Refusal::InputRecord { input } => {
                write!(
                    f,
                    "input {input} has an unknown kind, or its lo exceeds its hi"
                )
            }
            Refusal::RowByte { place, byte } => write!(
                f,
                "byte {byte} of the row at {place} is wrong: it {}",
                byte_rule(byte)
            ),
            Refusal::NoWidth => write!(f, "the domain has no cell of 1 to 64 bytes"),
            Refusal::TableSize => write!(
                f,
                "the table part is not a flag and a cell for each variable, for each place"
            ),
            Refusal::EntryFlag { place } => {
                write!(
                    f,
                    "the first byte of the entry at {place} is neither 0 nor 1"
                )
            }
            Refusal::CellUnreadable { place, variable } => {
                write!(
                    f,
                    "the cell of v{variable} in the entry at {place} holds no value"
                )
            }
            // Variable 16 is none: told by the same four numbers, in the same words.
            Refusal::StartAbsent | Refusal::StartUncovered { variable: 16 } => {
                write!(f, "the entry at 0 is absent")
            }
            Refusal::StartUncovered { variable } => {
                write!(
                    f,
                    "the cell of v{variable} in the entry at 0 does not cover 0"
                )
            }
            Refusal::ZeroWarning { place } => { write!(f, "the row at {place} may divide by 0") }
            Refusal::RangeWarning { place } => {
                write!(
                    f,
                    "the result of the row at {place} may leave the 32-bit integers"
                )
            }
            Refusal::EntryAbsent { place, way } => {
                write!(f, "way {way} from {place} leads to an absent entry")
            }
            Refusal::NotCovered {
                place,
                way,
                variable,
            } => write!(
                f,
                "way {way} from {place} leads to an entry that does not cover v{variable}"
            ),
            Refusal::NoSetting => write!(f, "no setting has that number"),
            Refusal::SettingOutside => write!(f, "the value is outside the set of the setting"),
            Refusal::ReadingOutside => write!(f, "the reading is outside the set of its input"),
            Refusal::NoVariable => write!(f, "no variable has that number"),
            Refusal::NothingHeld => write!(f, "the bay holds nothing"),
            Refusal::Running => write!(f, "the routine runs"),
            Refusal::NotRunning => write!(f, "the routine does not run"),
        }
    }
}

// The part of a refusal, which names it by its number.
fn part_named(part: usize) -> PartName {
    match part {
        0 => PartName::Inputs,
        1 => PartName::Rows,
        _ => PartName::Table,
    }
}

// What a byte of the head has to be.
fn head_rule(byte: usize) -> &'static str {
    match byte {
        0 => "the version is 1",
        1 => "there are 1 to 16 variables",
        2 => "there are at most 8 inputs",
        _ => "it is 0",
    }
}

// What a byte of a row says, where its kind uses it.
fn byte_rule(byte: usize) -> &'static str {
    match byte {
        0 => "is a kind from 0 to 4",
        1 => "names the variable that is set, or is 0",
        2 => "names an operation, a relation or an input, or is 0",
        3 | 4 => "names a variable, or is 0",
        5 | 6 => "names a place, or is 0",
        7 => "is 0",
        _ => "is 0 unless the row puts an integer",
    }
}

impl fmt::Display for PartName {
    ghost output = { λ part. Some (part_word part) };

    fn fmt<W: fmt::Write>(&self, f: &mut fmt::Formatter<W>) -> fmt::Result {
        f.write_str(match self {
            PartName::Inputs => "inputs",
            PartName::Rows => "rows",
            PartName::Table => "table",
        })
    }
}

/// The inputs of a sheet, a line each.
#[derive(Clone, Copy)]
pub struct InputLines<'a>(pub Sheet<'a>);

impl fmt::Display for InputLines<'_> {
    fn fmt<W: fmt::Write>(&self, f: &mut fmt::Formatter<W>) -> fmt::Result {
        // By number, which is written.
        for number in 0..self.0.input_count {
            writeln!(f, "input {number}: {}", self.0.input(number))?;
        }
        Ok(())
    }
}

/// The rows of a sheet, a line each.
#[derive(Clone, Copy)]
pub struct RowLines<'a>(pub Sheet<'a>);

impl fmt::Display for RowLines<'_> {
    fn fmt<W: fmt::Write>(&self, f: &mut fmt::Formatter<W>) -> fmt::Result {
        // By number, which is written.
        for place in 0..self.0.places {
            writeln!(f, "{place}: {}", self.0.row(place))?;
        }
        Ok(())
    }
}

// The four numbers, as programs print them.
impl fmt::Display for Report {
    ghost output = { λ report. Some (report_words report) };

    fn fmt<W: fmt::Write>(&self, f: &mut fmt::Formatter<W>) -> fmt::Result {
        write!(
            f,
            "{} {} {} {}",
            self.number, self.place, self.way, self.variable
        )
    }
}
