// The table of a sheet as text: cells as values of a domain, or as bytes where they are no such values.
ghost use Rattle.std.specs.Prelude.{◌<◌};

use notation::{DomainName, Hexadecimal, InNotation, Notation, Written};
use sheet::Sheet;
use std::io;

/// A sheet whose table is to be printed, in the domain with that name.
#[derive(Clone, Copy)]
pub struct Printing<'a> {
    pub rt: &'a HostRuntime,
    pub sheet: Sheet<'a>,
    pub domain: DomainName,
}

impl InNotation for Printing<'_> {
    type Answer = io::Result<()>;

    // The table with its cells as values of `D`, if that is their width, else as bytes alone.
    fn run<D: Notation>(&mut self) -> io::Result<()> {
        let Some(width) = self.sheet.cell_width() else {
            return println!(self.rt;
                "# the table has {} bytes, which are no entries with cells of 1 to 64 bytes",
                self.sheet.table.bytes.len()
            );
        };
        if width == D::width() {
            println!(self.rt; "table: {}", self.domain)?;
        } else {
            println!(self.rt; "table: {width} bytes a cell")?;
        }
        let size = 1 + self.sheet.variables * width;
        for (place, entry) in self.sheet.table.bytes.chunks(size).enumerate() {
            print!(self.rt; "entry {place}:")?;
            self.print_entry::<D>(entry, width)?;
            println!(self.rt)?;
        }
        Ok(())
    }
}

impl Printing<'_> {
    // An entry: `absent` where all is 0, else its cells, behind the flag where that is not 1.
    fn print_entry<D: Notation>(&self, entry: &[u8], width: usize) -> io::Result<()>
        requires { 0 < width }
    {
        let [flag, cells @ ..] = entry else {
            return Ok(());
        };
        if *flag == 0 && cells.iter().all(|byte| *byte == 0) {
            return print!(self.rt; " absent");
        }
        if *flag != 1 {
            print!(self.rt; " flag {flag}")?;
        }
        for cell in cells.chunks(width) {
            self.print_cell::<D>(cell)?;
        }
        Ok(())
    }

    // A cell as the value that it holds, or as its bytes where it holds none.
    fn print_cell<D: Notation>(&self, cell: &[u8]) -> io::Result<()> {
        match D::read(cell) {
            Some(value) => print!(self.rt; " {}", Written(value)),
            None => print!(self.rt; " #{}", Hexadecimal(cell)),
        }
    }
}
