// Reads a sheet from standard input and prints in words what it holds, or why its format is refused.
// It checks the format alone: whether the routine is safe is not asked here.
#![tactic(auto)]

ghost use Rattle.std.specs.Prelude.{◌≡◌, ◌+◌, ◌*◌, ◌<◌, slice_index};
ghost use Rattle.inspect.specs.Flags.{flag_of};
ghost use Rattle.scan.specs.Scan.{chunk};
ghost use Rattle.sheet.specs.Sheets.{Width};
ghost use Rattle.sheet.specs.Views.{seen};

use scan::piece;
use sheet::{InputLines, Part, RowLines, Sheet};
use std::io::Read;
use std::{fmt, io};

// One byte more than a sheet may have.
const LIMIT: u64 = 1_048_577;

fn main(rt: HostRuntime) -> io::Result<()> {
    let mut bytes = Vec::new(rt.alloc());
    rt.stdin().take(LIMIT).read_to_end(&mut bytes)?;
    match Sheet::read(bytes.as_slice()) {
        Ok(sheet) => {
            print_head(&rt, &sheet, bytes.len())?;
            print_part(&rt, "inputs", sheet.input_count, &sheet.inputs)?;
            print!(&rt; "{}", InputLines(sheet))?;
            print_part(&rt, "rows", sheet.places, &sheet.rows)?;
            print!(&rt; "{}", RowLines(sheet))?;
            print_table(&rt, &sheet)
        }
        Err(refusal) => {
            println!(rt; "refused {}", refusal.report())?;
            println!(rt; "{refusal}")
        }
    }
}

fn print_head(rt: &HostRuntime, sheet: &Sheet<'_>, size: usize) -> io::Result<()> {
    println!(rt; "sheet: version 1, {size} bytes")?;
    println!(rt; "variables: {}", sheet.variables)
}

fn print_part(rt: &HostRuntime, name: &str, count: usize, part: &Part<'_>) -> io::Result<()> {
    println!(rt;
        "{name}: {count}, {} bytes from byte {} on",
        part.bytes.len(),
        part.at
    )
}

fn print_table(rt: &HostRuntime, sheet: &Sheet<'_>) -> io::Result<()> {
    print_part(rt, "table entries", sheet.places, &sheet.table)?;
    match sheet.cell_width() {
        None => println!(rt; "cells: no width from 1 to 64 bytes makes entries of that length"),
        Some(width) => {
            println!(rt; "cells: {width} bytes each")?;
            let entries = Entries {
                sheet: *sheet,
                width,
            };
            for flag in [Flag::Present, Flag::Absent, Flag::Neither] {
                entries.print(rt, flag)?;
            }
            Ok(())
        }
    }
}

// What the first byte of an entry says.
#[derive(Clone, Copy, PartialEq, Eq)]
enum Flag {
    Present,
    Absent,
    Neither,
}

impl From<u8> for Flag {
    ghost from_gives = { λ byte flag. flag ≡ flag_of byte };

    fn from(byte: u8) -> Flag {
        match byte {
            0 => Flag::Absent,
            1 => Flag::Present,
            _ => Flag::Neither,
        }
    }
}

impl fmt::Display for Flag {
    fn fmt<W: fmt::Write>(&self, f: &mut fmt::Formatter<W>) -> fmt::Result {
        f.write_str(match self {
            Flag::Present => "present",
            Flag::Absent => "absent",
            Flag::Neither => "neither present nor absent",
        })
    }
}

// The entries of a sheet, in which cells have `width` bytes.
#[derive(Clone, Copy)]
struct Entries<'a> {
    sheet: Sheet<'a>,
    width: usize,
    ghost wide: { Width (seen sheet) width },
}

impl Entries<'_> {
    // The first byte of the entry at `place`.
    fn flag(&self, place: usize) -> Flag
        requires within { place < self.now.sheet.places }
        ensures { result ≡ flag_of (slice_index (chunk (1 + self.now.sheet.variables * self.now.width) place self.now.sheet.table.bytes.now) 0) }
    {
        let size = 1 + self.sheet.variables * self.width;
        let entry = piece(self.sheet.table.bytes, size, self.sheet.places, place);
        entry[0].into()
    }

    // One line with the places whose entry has this flag, where there is one.
    fn print(&self, rt: &HostRuntime, flag: Flag) -> io::Result<()> {
        let mut places = (0..self.sheet.places)
            .filter(|&place| self.flag(place) == flag)
            .peekable();
        if places.peek().is_none() {
            return Ok(());
        }
        print!(rt; "{flag}:")?;
        for place in places {
            print!(rt; " {place}")?;
        }
        println!(rt)
    }
}
