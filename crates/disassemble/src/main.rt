// Reads a sheet from standard input and prints its text form, which `assemble` makes the sheet of again, or why its
// format is refused. The argument names the domain that cells are written in; without one they are written in spans.
// It checks the format alone: whether the routine is safe is not asked here.
#![tactic(auto)]

mod tables;

use notation::{DomainName, run_in};
use sheet::{InputLines, RowLines, Sheet};
use std::io::Read;
use std::{env, io};
use tables::Printing;

// One byte more than a sheet may have.
const LIMIT: u64 = 1_048_577;

fn main(rt: HostRuntime) -> anyhow::Result<()> {
    let domain = chosen_domain(&rt)?;
    let mut bytes = Vec::new(rt.alloc());
    rt.stdin().take(LIMIT).read_to_end(&mut bytes)?;
    match Sheet::read(bytes.as_slice()) {
        Ok(sheet) => {
            print_head(&rt, &sheet, bytes.len())?;
            print!(&rt; "{}", InputLines(sheet))?;
            print!(&rt; "{}", RowLines(sheet))?;
            run_in(
                domain,
                &mut Printing {
                    rt: &rt,
                    sheet,
                    domain,
                },
            )?;
        }
        Err(refusal) => {
            println!(rt; "refused {}", refusal.report())?;
            println!(rt; "{refusal}")?;
        }
    }
    Ok(())
}

// The domain that the first argument names; spans where there is none.
fn chosen_domain(rt: &HostRuntime) -> anyhow::Result<DomainName> {
    match env::args(rt)?.nth(1) {
        Some(name) => Ok(name.as_str().parse()?),
        None => Ok(DomainName::Spans),
    }
}

// What only the bytes have: how many there are, where the parts begin, and whether there are others.
fn print_head(rt: &HostRuntime, sheet: &Sheet<'_>, size: usize) -> io::Result<()> {
    let inputs = sheet.inputs.at;
    let rows = sheet.rows.at;
    let table = sheet.table.at;
    println!(rt; "# {size} bytes: inputs from {inputs}, rows from {rows}, table from {table}")?;
    if has_gaps(sheet, size) {
        println!(rt; "# bytes between the parts or behind the table are left out here")?;
    }
    println!(rt; "variables: {}", sheet.variables)
}

// Whether a sheet of so many bytes has some that no part holds.
fn has_gaps(sheet: &Sheet<'_>, size: usize) -> bool {
    let parts = sheet
        .inputs
        .bytes
        .len()
        .saturating_add(sheet.rows.bytes.len())
        .saturating_add(sheet.table.bytes.len());
    parts.saturating_add(28) != size
}
