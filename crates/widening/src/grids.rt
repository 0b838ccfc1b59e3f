// A sheet that can be widened: how long it then is, and its bytes.
ghost use Rattle.std.specs.Prelude.{◌≡◌, ◌+◌, ◌*◌, ◌≤◌, length, Ok, Err, MatchResult};
ghost use Rattle.sheet.specs.Views.{seen};
ghost use Rattle.widening.specs.Answers.{fitting};
ghost use Rattle.widening.specs.Writes.{cells_with, entry_with, table_with, sheet_with};

use crate::heads::Head;
use crate::writes::fill_cell;
use domain::Domain;
use layers::pair::Pair;
use sheet::{Refusal, Sheet};

// A sheet with cells of `width` bytes: each entry has a flag and a cell for each variable.
// Each `fill` writes over the whole of a slice. It goes over the chunks of what is read and finds the place of each,
// since a proof knows no byte of a slice that `chunks_exact_mut` has lent.
#[derive(Clone, Copy)]
pub(crate) struct Grid<'a> {
    pub(crate) sheet: Sheet<'a>,
    pub(crate) width: usize,
    ghost some: { 1 ≤ width },
    ghost narrow: { width ≤ 64 },
    ghost whole: { length sheet.table.bytes.now ≡ sheet.places * (1 + sheet.variables * width) },
}

impl<'a> Grid<'a> {
    // A sheet of the first domain, where the pair with the second has cells.
    pub(crate) fn read<A: Domain, B: Domain>(bytes: &'a [u8]) -> Result<Grid<'a>, Refusal>
        ensures { MatchResult result (λ g. (fitting A.Domain.ops B.Domain.ops bytes.now ≡ Ok (seen g.sheet)) × (g.width ≡ A.Domain.ops.width)) (λ e. fitting A.Domain.ops B.Domain.ops bytes.now ≡ Err e) }
    {
        let sheet = Sheet::read(bytes)?;
        let width = A::width();
        if width == 0 {
            return Err(Refusal::NoWidth);
        }
        if sheet.table.bytes.len() != sheet.places * (1 + sheet.variables * width) {
            return Err(Refusal::TableSize);
        }
        if Pair::<A, B>::width() == 0 {
            return Err(Refusal::NoWidth);
        }
        Ok(Grid { sheet, width })
    }

    // How many bytes an entry has once it is widened.
    fn widened_entry<B: Domain>(&self) -> usize
        ensures { result ≡ 1 + self.now.sheet.variables * (self.now.width + B.Domain.ops.width) }
    {
        1 + self.sheet.variables * (self.width + B::width())
    }

    // How many bytes the sheet has once it is widened.
    pub(crate) fn widened_len<B: Domain>(&self) -> usize
        ensures { result ≡ 28 + length (seen self.now.sheet).inputs.bytes + length (seen self.now.sheet).rows.bytes + self.now.sheet.places * (1 + self.now.sheet.variables * (self.now.width + B.Domain.ops.width)) }
    {
        28 + self.sheet.inputs.bytes.len()
            + self.sheet.rows.bytes.len()
            + self.sheet.places * self.widened_entry::<B>()
    }

    // The cells of an entry, each with the blank cell of a second domain after it.
    fn fill_cells<B: Domain>(&self, out: &mut [u8], cells: &[u8])
        requires whole { length cells.now ≡ self.now.sheet.variables * self.now.width }
        requires room { length out.old ≡ self.now.sheet.variables * (self.now.width + B.Domain.ops.width) }
        ensures { out.new ≡ cells_with B.Domain.ops self.now.width cells.now self.now.sheet.variables }
    {
        let step = self.width + B::width();
        for (x, cell) in cells.chunks_exact(self.width).enumerate() {
            let at = x * step;
            fill_cell::<B>(&mut out[at..at + step], cell);
        }
    }

    // An entry, present or absent: its flag and its cells.
    fn fill_entry<B: Domain>(&self, out: &mut [u8], entry: &[u8])
        requires whole { length entry.now ≡ 1 + self.now.sheet.variables * self.now.width }
        requires room { length out.old ≡ 1 + self.now.sheet.variables * (self.now.width + B.Domain.ops.width) }
        ensures { out.new ≡ entry_with B.Domain.ops self.now.width self.now.sheet.variables entry.now }
    {
        let (flag, cells) = entry.split_at(1);
        let (to_flag, to_cells) = out.split_at_mut(1);
        to_flag.copy_from_slice(flag);
        self.fill_cells::<B>(to_cells, cells);
    }

    // The table, entry by entry.
    fn fill_table<B: Domain>(&self, out: &mut [u8])
        requires { length out.old ≡ self.now.sheet.places * (1 + self.now.sheet.variables * (self.now.width + B.Domain.ops.width)) }
        ensures { out.new ≡ table_with B.Domain.ops self.now.width self.now.sheet.variables (seen self.now.sheet).table.bytes self.now.sheet.places }
    {
        let size = 1 + self.sheet.variables * self.width;
        let step = self.widened_entry::<B>();
        for (place, entry) in self.sheet.table.bytes.chunks_exact(size).enumerate() {
            let at = place * step;
            self.fill_entry::<B>(&mut out[at..at + step], entry);
        }
    }

    // The whole sheet.
    pub(crate) fn fill<B: Domain>(&self, out: &mut [u8])
        requires { length out.old ≡ 28 + length (seen self.now.sheet).inputs.bytes + length (seen self.now.sheet).rows.bytes + self.now.sheet.places * (1 + self.now.sheet.variables * (self.now.width + B.Domain.ops.width)) }
        ensures { out.new ≡ sheet_with B.Domain.ops self.now.width (seen self.now.sheet) }
    {
        let (head, parts) = out.split_at_mut(28);
        let (inputs, parts) = parts.split_at_mut(self.sheet.inputs.bytes.len());
        let (rows, table) = parts.split_at_mut(self.sheet.rows.bytes.len());
        let says = Head {
            variables: self.sheet.variables as u8,
            input_count: self.sheet.input_count as u8,
            inputs: inputs.len() as u32,
            rows: rows.len() as u32,
            table: table.len() as u32,
        };
        head.copy_from_slice(&says.to_bytes());
        inputs.copy_from_slice(self.sheet.inputs.bytes);
        rows.copy_from_slice(self.sheet.rows.bytes);
        self.fill_table::<B>(table);
    }
}
