// Reads the text of a sheet from standard input and writes the sheet's bytes to standard output.
// A mistake is told on standard error as `line N: reason`, nothing is written, and the program ends with status 1 and the
// words `Error: no sheet`.
// docs/TEXT.md has the form, which is what `disassemble` prints.
#![tactic(auto)]

use anyhow::anyhow;
use lines::Mistake;
use std::alloc::Global;
use std::io::{Read, Write};
use text::Draft;

// More than the text of any sheet needs.
const LIMIT: u64 = 16_777_216;

fn main(rt: HostRuntime) -> anyhow::Result<()> {
    let mut bytes = Vec::new(rt.alloc());
    rt.stdin().take(LIMIT).read_to_end(&mut bytes)?;
    let Ok(text) = String::from_utf8(bytes) else {
        eprintln!(rt; "line 1: the text is not UTF-8")?;
        return Err(anyhow!("no sheet"));
    };
    match assembled(rt.alloc(), text.as_str()) {
        Ok(sheet) => {
            rt.stdout().write_all(sheet.as_slice())?;
            Ok(())
        }
        Err(mistake) => {
            eprintln!(rt; "{mistake}")?;
            Err(anyhow!("no sheet"))
        }
    }
}

// The sheet of a text.
fn assembled(heap: Global, text: &str) -> Result<Vec<u8>, Mistake> {
    let mut draft = Draft::new(heap);
    for line in text.lines() {
        draft.line(line)?;
    }
    draft.finish()
}
