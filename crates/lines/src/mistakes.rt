// Mistakes in a text, and how they are told.
ghost use Rattle.std.specs.Prelude.{◌≡◌};
ghost use Rattle.lines.specs.declared.mistakes.Reason.TheVariants.{Memory, Refused};

use sheet::Refusal;
use std::alloc::{AllocError, AllocFailed};
use std::fmt;
use writing::Unwritten;

/// What is wrong with a line.
#[derive(Clone, Copy)]
pub enum Reason {
    UnknownLine,
    VariablesFirst,
    VariablesTwice,
    VariableCount,
    InputsLate,
    InputMany,
    InputOrder { next: usize },
    InputForm,
    InputEmpty,
    Integer,
    RowsLate,
    RowMany,
    RowOrder { next: usize },
    RowForm,
    VariableForm,
    VariableMissing { count: usize },
    InputMissing { count: usize },
    PlaceForm,
    /// The row at this place goes to a place that is not there.
    PlaceMissing { row: usize, count: usize },
    Operation,
    Relation,
    TableEarly,
    TableTwice,
    TableForm,
    DomainUnknown,
    DomainCellless,
    CellWidth,
    EntriesEarly,
    EntryForm,
    EntryMany { count: usize },
    EntryOrder { next: usize },
    EntryFlag,
    CellCount { count: usize },
    Cell { variable: usize },
    TableMissing,
    EntryMissing { next: usize },
    /// The sheet would be no sheet; no text is known that comes to this.
    Refused(Refusal),
    Large,
    Memory,
}

/// What is wrong, and the line, from 1, that it is wrong with.
#[derive(Clone, Copy)]
pub struct Mistake {
    pub line: usize,
    pub reason: Reason,
}

impl From<AllocError> for Reason {
    ghost from_gives = { λ _ r. r ≡ Memory };

    fn from(_e: AllocError) -> Reason {
        Reason::Memory
    }
}

impl<T: Drop> From<AllocFailed<T>> for Reason {
    ghost from_gives = { λ _ r. r ≡ Memory };

    fn from(_e: AllocFailed<T>) -> Reason {
        Reason::Memory
    }
}

impl From<Unwritten> for Reason {
    fn from(e: Unwritten) -> Reason {
        match e {
            Unwritten::Large => Reason::Large,
            Unwritten::Memory => Reason::Memory,
        }
    }
}

impl From<Refusal> for Reason {
    ghost from_gives = { λ e r. r ≡ Refused e };

    fn from(e: Refusal) -> Reason {
        Reason::Refused(e)
    }
}

impl fmt::Display for Mistake {
    fn fmt<W: fmt::Write>(&self, f: &mut fmt::Formatter<W>) -> fmt::Result {
        write!(f, "line {}: {}", self.line, self.reason)
    }
}

impl fmt::Display for Reason {
    fn fmt<W: fmt::Write>(&self, f: &mut fmt::Formatter<W>) -> fmt::Result {
        match *self {
            Reason::UnknownLine => f.write_str(
                "a line begins with 'variables:', 'input N:', 'N:', 'table:' or 'entry N:'",
            ),
            Reason::VariablesFirst => f.write_str("the line 'variables: N' comes first"),
            Reason::VariablesTwice => f.write_str("the variables are counted already"),
            Reason::VariableCount => f.write_str("there are 1 to 16 variables"),
            Reason::InputsLate => f.write_str("the inputs come before the rows"),
            Reason::InputMany => f.write_str("there are at most 8 inputs"),
            Reason::InputOrder { next } => write!(f, "the next input is number {next}"),
            Reason::InputForm => f.write_str(
                "an input is 'input N: reading LO..HI' or 'input N: setting LO..HI'",
            ),
            Reason::InputEmpty => f.write_str("the lo of an input does not exceed its hi"),
            Reason::Integer => f.write_str("an integer lies from -2147483648 to 2147483647"),
            Reason::RowsLate => f.write_str("the rows come before the table"),
            Reason::RowMany => f.write_str("there are at most 256 places"),
            Reason::RowOrder { next } => write!(f, "the next row is number {next}"),
            Reason::RowForm => f.write_str(
                "a row is 'end', 'vX := N, go to P', 'vX := input K, go to P', 'vX := vA OP vB, go to P' or 'if vA REL vB go to P else P'",
            ),
            Reason::VariableForm => f.write_str("a variable is written as 'v' and its number"),
            Reason::VariableMissing { count } => write!(
                f,
                "there is no such variable: they are counted from v0, and there are {count}"
            ),
            Reason::InputMissing { count } => write!(
                f,
                "there is no such input: they are counted from 0, and there are {count}"
            ),
            Reason::PlaceForm => f.write_str("a place is a number from 0 to 255"),
            Reason::PlaceMissing { count, .. } => write!(
                f,
                "there is no such place: they are counted from 0, and there are {count}"
            ),
            Reason::Operation => f.write_str("an operation is one of + - * / < <= = !="),
            Reason::Relation => f.write_str("a relation is one of < <= = != > >="),
            Reason::TableEarly => f.write_str(
                "the rows come before the table, and there is at least one",
            ),
            Reason::TableTwice => f.write_str("the table has begun already"),
            Reason::TableForm => f.write_str(
                "the table begins with 'table: DOMAIN' or 'table: N bytes a cell'",
            ),
            Reason::DomainUnknown => f.write_str("no domain has that name"),
            Reason::DomainCellless => f.write_str("that domain has no cells"),
            Reason::CellWidth => f.write_str("a cell has 1 to 64 bytes"),
            Reason::EntriesEarly => f.write_str("the line 'table: ..' comes before the entries"),
            Reason::EntryForm => f.write_str(
                "an entry is 'entry N: absent', or 'entry N:' with a cell for each variable",
            ),
            Reason::EntryMany { count } => write!(
                f,
                "each place has its entry already, and there are {count}"
            ),
            Reason::EntryOrder { next } => write!(f, "the next entry is number {next}"),
            Reason::EntryFlag => f.write_str("a flag is a number from 0 to 255"),
            Reason::CellCount { count } => write!(
                f,
                "an entry has a cell for each variable, and there are {count}"
            ),
            Reason::Cell { variable } => write!(
                f,
                "no value of the table's domain, and no '#' with the digits of its bytes, stands for variable {variable}"
            ),
            Reason::TableMissing => f.write_str("the text ends before its table"),
            Reason::EntryMissing { next } => write!(f, "the text ends before entry {next}"),
            Reason::Refused(refusal) => write!(f, "the sheet would be refused: {refusal}"),
            Reason::Large => f.write_str("the sheet is too large"),
            Reason::Memory => f.write_str("there is not enough memory"),
        }
    }
}
