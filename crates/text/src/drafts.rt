// A sheet in the making, line by line.
ghost use Rattle.std.specs.Prelude.{◌≡◌, ◌≤◌, ◌<◌, ◌+◌, ◌^◌, ◌-◌, ◌≤ℤ◌, true, false, map, length, vec_items, min, All, IfOk, IfErr, OnOk, OnErr};
ghost use Rattle.std.proofs.Props.{props};
ghost use Rattle.lines.specs.Known.{Known};
ghost use Rattle.widening.specs.Widened.{sheet_bytes};
ghost use Rattle.text.specs.Counted.{begun, IsLine};

use crate::entries::{cells_of, push_entry};
use lines::{Counts, Mistake, Reason, input_of, numbered, row_of, words_of};
use machine::{Input, MAX_INPUTS, MAX_PLACES, MAX_VARIABLES, Row};
use notation::{Cells, number};
use sheet::Sheet;
use std::alloc::{AllocError, Global};
use writing::sheet_bytes;

// The part of the text that the last line was of.
#[derive(Clone, Copy)]
enum Stage {
    Start,
    Inputs,
    Rows,
    Table(Cells),
}

// A row, and the number of the line that it is from.
#[derive(Clone, Copy)]
struct NumberedRow {
    row: Row,
    line: usize,
}

// Whether each place that a row goes to is among so many.
fn has_places(row: Row, count: usize) -> bool {
    match row {
        Row::End => true,
        Row::Put { next, .. } | Row::Take { next, .. } | Row::Work { next, .. } => {
            usize::from(next) < count
        }
        Row::Fork {
            next,
            otherwise,
            ..
        } => usize::from(next.max(otherwise)) < count,
    }
}

/// What the lines so far say.
#[derive(Drop)]
pub struct Draft {
    heap: Global,
    lines: usize,
    stage: Stage,
    variables: usize,
    inputs: Vec<Input>,
    rows: Vec<NumberedRow>,
    entries: usize,
    table: Vec<u8>,

    // The variables are 1 to 16 once they are counted, and each row is from a line that is counted.
    ghost counted: { begun stage ≡ true → (1 ≤ variables) × (variables ≤ 16) },
    ghost numbered: { All (λ r. IsLine lines r.line) (vec_items rows) } by { Prim.hlevel props },
}

impl Draft {
    ghost use Rattle.text.specs.Drafts.{drafted, IsSheet, nothing, NoneCounted, OneInput, OneRow, SameEntries, SameInputs, SameRows, KeepsVariables, Grows, AddsNothing, CountsVariables, IsToldLine, IsNumbered};

    /// A draft of which no line is known.
    pub fn new(heap: Global) -> Draft
        ensures holds { drafted result ≡ nothing }
        ensures counts { NoneCounted result }
        ensures numbered { IsNumbered result }
    {
        Draft {
            heap,
            lines: 0,
            stage: Stage::Start,
            variables: 0,
            inputs: Vec::new(heap),
            rows: Vec::new(heap),
            entries: 0,
            table: Vec::new(heap),
        }
    }

    // What is wrong with its line: that of a row that goes to no place, else the last.
    fn mistake(&self, reason: Reason) -> Mistake
        ensures reason { result.reason ≡ reason }
        ensures line { 1 ≤ self.now.lines → IsLine self.now.lines result.line }
        ensures told { 1 ≤ self.now.lines → IsToldLine self.now result.reason result.line }
    {
        let line = match reason {
            Reason::PlaceMissing { row, .. } => self
                .rows
                .get(row)
                .map_or(self.lines, |row| row.line),
            _ => self.lines.max(1),
        };
        Mistake { line, reason }
    }

    /// Takes the next line in.
    pub fn line(&mut self, text: &str) -> Result<(), Mistake>
        ensures grows { Grows self.old self.new }
        ensures keeps { KeepsVariables self.old self.new }
        ensures variables { CountsVariables self.old self.new }
        ensures refused { OnErr result (AddsNothing self.old self.new) }
        ensures counted { self.new.lines ≡ min (self.old.lines + 1) (2 ^ 64 - 1) }
        ensures numbered { IsNumbered self.new }
        ensures named { IfErr result (λ m. IsLine self.new.lines m.line) }
        ensures told { IfErr result (λ m. IsToldLine self.new m.reason m.line) }
    {
        self.take_in(text).map_err(|reason| self.mistake(reason))
    }

    /// The sheet, when all lines are taken in: its parts are what the draft holds, and it is well-formed.
    pub fn finish(self) -> Result<Vec<u8>, Mistake>
        ensures value { IfOk result (λ v. v.items ≡ sheet_bytes (drafted self)) }
        ensures formed { IfOk result (λ v. IsSheet v.items) }
    {
        self.written().map_err(|reason| self.mistake(reason))
    }

    // The rows without their lines.
    fn rows_alone(&self) -> Result<Vec<Row>, AllocError>
        ensures { IfOk result (λ v. v.items ≡ map (λ r. r.row) (vec_items self.now.rows)) }
    {
        self.rows.iter().map(|row| row.row).collect(self.heap)
    }

    // The sheet, which is read back to see that it is one.
    fn written(&self) -> Result<Vec<u8>, Reason>
        ensures value { IfOk result (λ v. v.items ≡ sheet_bytes (drafted self.now)) }
        ensures formed { IfOk result (λ v. IsSheet v.items) }
    {
        let Stage::Table(_) = self.stage else {
            return Err(Reason::TableMissing);
        };
        if self.entries < self.rows.len() {
            return Err(Reason::EntryMissing { next: self.entries });
        }
        let rows = self.rows_alone()?;
        let bytes = sheet_bytes(
            self.heap,
            self.variables,
            self.inputs.as_slice(),
            rows.as_slice(),
            self.table.as_slice(),
        )?;
        Sheet::read(bytes.as_slice())?;
        Ok(bytes)
    }

    // Counts the line, and takes in what its words say. What is refused adds no variables, no input, no row and no entry.
    fn take_in(&mut self, text: &str) -> Result<(), Reason>
        ensures grows { Grows self.old self.new }
        ensures keeps { KeepsVariables self.old self.new }
        ensures variables { CountsVariables self.old self.new }
        ensures refused { OnErr result (AddsNothing self.old self.new) }
        ensures counted { self.new.lines ≡ min (self.old.lines + 1) (2 ^ 64 - 1) }
    {
        self.lines = self.lines.saturating_add(1);
        let words = words_of(self.heap, text)?;
        match words.as_slice() {
            [] => Ok(()),
            ["variables:", count @ ..] => self.take_variables(count),
            ["input", input @ ..] => self.take_input(input),
            ["table:", cells @ ..] => self.take_table(cells),
            ["entry", entry @ ..] => self.take_entry(entry),
            [place, row @ ..] => self.take_row(place, row),
        }
    }

    // The line that counts the variables.
    fn take_variables(&mut self, words: &[&str]) -> Result<(), Reason>
        ensures taken { OnOk result ((begun self.old.stage ≡ false) × SameInputs self.old self.new × SameRows self.old self.new × SameEntries self.old self.new) }
        ensures keeps { KeepsVariables self.old self.new }
        ensures variables { CountsVariables self.old self.new }
        ensures refused { OnErr result (AddsNothing self.old self.new) }
        ensures lines { self.new.lines ≡ self.old.lines }
    {
        self.variables = self.variable_count(words)?;
        self.stage = Stage::Inputs;
        Ok(())
    }

    // An input line.
    fn take_input(&mut self, words: &[&str]) -> Result<(), Reason>
        ensures taken { OnOk result ((begun self.old.stage ≡ true) × OneInput self.old self.new) }
        ensures keeps { KeepsVariables self.old self.new }
        ensures rows { SameRows self.old self.new }
        ensures entries { SameEntries self.old self.new }
        ensures refused { OnErr result (AddsNothing self.old self.new) }
        ensures lines { self.new.lines ≡ self.old.lines }
    {
        let input = self.next_input(words)?;
        self.inputs.push(input)?;
        Ok(())
    }

    // A row line.
    fn take_row(&mut self, place: &str, words: &[&str]) -> Result<(), Reason>
        requires { 1 ≤ self.old.lines }
        ensures taken { OnOk result ((begun self.old.stage ≡ true) × OneRow self.old self.new) }
        ensures keeps { KeepsVariables self.old self.new }
        ensures inputs { SameInputs self.old self.new }
        ensures entries { SameEntries self.old self.new }
        ensures refused { OnErr result (AddsNothing self.old self.new) }
        ensures lines { self.new.lines ≡ self.old.lines }
    {
        let row = self.next_row(place, words)?;
        self.rows.push(NumberedRow {
            row,
            line: self.lines,
        })?;
        self.stage = Stage::Rows;
        Ok(())
    }

    // The line that begins the table.
    fn take_table(&mut self, words: &[&str]) -> Result<(), Reason>
        ensures keeps { KeepsVariables self.old self.new }
        ensures begun { OnOk result (begun self.old.stage ≡ true) }
        ensures nothing { AddsNothing self.old self.new }
        ensures lines { self.new.lines ≡ self.old.lines }
    {
        self.stage = Stage::Table(self.table_cells(words)?);
        Ok(())
    }

    // An entry line.
    fn take_entry(&mut self, words: &[&str]) -> Result<(), Reason>
        ensures taken { OnOk result ((begun self.old.stage ≡ true) × (self.new.entries ≡ self.old.entries + 1)) }
        ensures keeps { KeepsVariables self.old self.new }
        ensures inputs { SameInputs self.old self.new }
        ensures rows { SameRows self.old self.new }
        ensures refused { OnErr result (AddsNothing self.old self.new) }
        ensures lines { self.new.lines ≡ self.old.lines }
    {
        let (cells, entry) = self.next_entry(words)?;
        push_entry(&mut self.table, cells, self.variables, entry)?;
        self.entries += 1;
        Ok(())
    }

    // How many variables the words behind `variables:` count.
    fn variable_count(&self, words: &[&str]) -> Result<usize, Reason>
        ensures first { OnOk result (begun self.now.stage ≡ false) }
        ensures count { IfOk result (λ n. (1 ≤ n) × (n ≤ 16)) }
    {
        let Stage::Start = self.stage else {
            return Err(Reason::VariablesTwice);
        };
        let [count] = words else {
            return Err(Reason::VariableCount);
        };
        match number(count) {
            Some(count @ 1..=MAX_VARIABLES) => Ok(count),
            _ => Err(Reason::VariableCount),
        }
    }

    // The input that the words behind `input` say, if it is the next.
    fn next_input(&self, words: &[&str]) -> Result<Input, Reason>
        ensures begun { OnOk result (begun self.now.stage ≡ true) }
        ensures set { IfOk result (λ i. i.lo ≤ℤ i.hi) }
    {
        match self.stage {
            Stage::Start => return Err(Reason::VariablesFirst),
            Stage::Inputs => {}
            _ => return Err(Reason::InputsLate),
        }
        let [number, input @ ..] = words else {
            return Err(Reason::InputForm);
        };
        let next = self.inputs.len();
        if next >= MAX_INPUTS {
            return Err(Reason::InputMany);
        }
        if numbered(number).ok_or(Reason::InputForm)? != next {
            return Err(Reason::InputOrder { next });
        }
        input_of(input)
    }

    // The row that a line says, if it is the next.
    fn next_row(&self, place: &str, words: &[&str]) -> Result<Row, Reason>
        ensures begun { OnOk result (begun self.now.stage ≡ true) }
        ensures known { IfOk result (Known self.now.variables (length (vec_items self.now.inputs))) }
    {
        let place = numbered(place).ok_or(Reason::UnknownLine)?;
        match self.stage {
            Stage::Start => return Err(Reason::VariablesFirst),
            Stage::Table(_) => return Err(Reason::RowsLate),
            _ => {}
        }
        let next = self.rows.len();
        if next >= MAX_PLACES {
            return Err(Reason::RowMany);
        }
        if place != next {
            return Err(Reason::RowOrder { next });
        }
        let counts = Counts {
            variables: self.variables,
            inputs: self.inputs.len(),
        };
        row_of(counts, words)
    }

    // How the cells are written, by the words behind `table:`, if each place that a row goes to has a row.
    fn table_cells(&self, words: &[&str]) -> Result<Cells, Reason>
        ensures { OnOk result (begun self.now.stage ≡ true) }
    {
        match self.stage {
            Stage::Start => return Err(Reason::VariablesFirst),
            Stage::Inputs => return Err(Reason::TableEarly),
            Stage::Rows => {}
            Stage::Table(_) => return Err(Reason::TableTwice),
        }
        let count = self.rows.len();
        match self.rows.iter().position(|row| !has_places(row.row, count)) {
            Some(row) => Err(Reason::PlaceMissing { row, count }),
            None => cells_of(words),
        }
    }

    // How the cells are written, and the words of the entry behind its number, if it is the next.
    fn next_entry<'a>(&self, words: &'a [&'a str]) -> Result<(Cells, &'a [&'a str]), Reason>
        ensures begun { OnOk result (begun self.now.stage ≡ true) }
        ensures room { OnOk result (self.now.entries < length (vec_items self.now.rows)) }
    {
        let Stage::Table(cells) = self.stage else {
            return Err(Reason::EntriesEarly);
        };
        let [place, entry @ ..] = words else {
            return Err(Reason::EntryForm);
        };
        let place = numbered(place).ok_or(Reason::EntryForm)?;
        let next = self.entries;
        let count = self.rows.len();
        if next >= count {
            return Err(Reason::EntryMany { count });
        }
        if place != next {
            return Err(Reason::EntryOrder { next });
        }
        Ok((cells, entry))
    }
}
