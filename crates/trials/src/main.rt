// A bench for sheets: spells them byte by byte, tries edits of them and prints what is refused.
// Lines of standard input:
//   new BYTE ..                  begins a sheet with these bytes
//   add BYTE ..                  adds bytes to it
//   fill COUNT                   adds that many zero bytes
//   again COUNT LENGTH           adds the last LENGTH bytes of the sheet COUNT times more
//   try AT=BYTE ..               reads the sheet with these bytes changed, and prints the answer
//   judge DOMAIN AT=BYTE ..      prints the verdict on it in a domain, by its name in the crate `catalog`
// A blank line, or one that begins with '#', is passed over. Numbers are decimal.
#![tactic(auto)]

mod judging;

use anyhow::{Context, anyhow};
use catalog::DomainName;
use judging::Judging;
use sheet::Sheet;
use std::alloc::{AllocError, Global};
use std::iter::repeat_n;

fn main(rt: HostRuntime) -> anyhow::Result<()> {
    let mut sheet = Vec::new(rt.alloc());
    for line in rt.lines(rt.alloc()) {
        let line = line?;
        let text = line.as_str().trim();
        let (verb, rest) = text.split_once(' ').unwrap_or((text, ""));
        match verb {
            "new" => {
                sheet.clear();
                add(&mut sheet, rest)?;
            }
            "add" => add(&mut sheet, rest)?,
            "fill" => fill(&mut sheet, rest.parse::<usize>()?)?,
            "try" => {
                let edited = with_edits(&sheet, rt.alloc(), rest)?;
                answer(&rt, rest, edited.as_slice())?;
            }
            "again" => again(&mut sheet, rt.alloc(), rest)?,
            "judge" => {
                let (domain, edits) = rest.split_once(' ').unwrap_or((rest, ""));
                let edited = with_edits(&sheet, rt.alloc(), edits)?;
                judge(&rt, rest, domain, edited.as_slice())?;
            }
            "" | "#" => {}
            _ => return Err(anyhow!("an unknown verb")),
        }
    }
    Ok(())
}

// Adds the bytes that the words name.
fn add(sheet: &mut Vec<u8>, words: &str) -> anyhow::Result<()> {
    for word in words.split_whitespace() {
        sheet.push(word.parse::<u8>()?)?;
    }
    Ok(())
}

// Adds zero bytes.
fn fill(sheet: &mut Vec<u8>, count: usize) -> Result<(), AllocError> {
    sheet.extend(repeat_n(0, count))
}

// Adds the last bytes of the sheet again: the words are how often, and how many.
fn again(sheet: &mut Vec<u8>, heap: Global, words: &str) -> anyhow::Result<()> {
    let (count, length) = words.split_once(' ').context("again COUNT LENGTH")?;
    let start = sheet
        .len()
        .checked_sub(length.parse::<usize>()?)
        .context("a longer piece than the sheet")?;
    let (_, last) = sheet.as_slice().split_at(start);
    let piece = Vec::from_slice(heap, last)?;
    // So many times again: it counts no index.
    for _ in 0..count.parse::<usize>()? {
        sheet.extend_from_slice(piece.as_slice())?;
    }
    Ok(())
}

// The sheet with the bytes changed that the words name, as 4=27.
fn with_edits(sheet: &Vec<u8>, heap: Global, words: &str) -> anyhow::Result<Vec<u8>> {
    let mut edited = Vec::from_slice(heap, sheet.as_slice())?;
    for word in words.split_whitespace() {
        let (at, byte) = word.split_once('=').context("an edit is AT=BYTE")?;
        let byte = byte.parse::<u8>()?;
        let place = edited.get_mut(at.parse::<usize>()?);
        *place.context("an edit past the sheet")? = byte;
    }
    Ok(edited)
}

fn answer(rt: &HostRuntime, edits: &str, sheet: &[u8]) -> anyhow::Result<()> {
    let name = if edits.is_empty() {
        "as spelled"
    } else {
        edits
    };
    print!(rt; "{name}: ")?;
    match Sheet::read(sheet) {
        Ok(_) => println!(rt; "read")?,
        Err(refusal) => println!(rt; "refused {}", refusal.report())?,
    }
    Ok(())
}

fn judge(rt: &HostRuntime, name: &str, domain: &str, sheet: &[u8]) -> anyhow::Result<()> {
    print!(rt; "{name}: ")?;
    let domain: DomainName = domain.parse().ok().context("an unknown domain")?;
    match domain.run(&mut Judging { sheet }) {
        Ok(places) => println!(rt; "taken {places}")?,
        Err(refusal) => println!(rt; "refused {}", refusal.report())?,
    }
    Ok(())
}
