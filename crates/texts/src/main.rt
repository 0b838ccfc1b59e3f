// Tries texts of sheets, and prints what comes of each: the first mistake with its line, or how many bytes the sheet
// has and, if they are few, the bytes.
// Standard input has the texts one after another; a line that begins with `===` ends a text, and names it.
// Lines of a text are counted from 1.
#![tactic(auto)]

use lines::Mistake;
use notation::Hexadecimal;
use text::Draft;

// The most bytes that are printed.
const FEW: usize = 96;

fn main(rt: HostRuntime) -> anyhow::Result<()> {
    let heap = rt.alloc();
    let mut draft = Draft::new(heap);
    let mut taken = Ok(());
    for line in rt.lines(heap) {
        let line = line?;
        match line.as_str().strip_prefix("===") {
            Some(name) => {
                answer(&rt, name.trim(), taken.and_then(|()| draft.finish()))?;
                draft = Draft::new(heap);
                taken = Ok(());
            }
            None => taken = taken.and_then(|()| draft.line(line.as_str())),
        }
    }
    Ok(())
}

// Prints the sheet, or the first mistake.
fn answer(rt: &HostRuntime, name: &str, res: Result<Vec<u8>, Mistake>) -> anyhow::Result<()> {
    match res {
        Ok(sheet) => {
            println!(rt; "{name}: {} bytes", sheet.len())?;
            if sheet.len() <= FEW {
                println!(rt; "  {}", Hexadecimal(sheet.as_slice()))?;
            }
        }
        Err(mistake) => println!(rt; "{name}: {mistake}")?,
    }
    Ok(())
}
