// Reads a sheet from standard input and prints the verdict on it in spans, one line:
//   taken PLACES
//   refused NUMBER PLACE WAY VARIABLE
// It reads up to 65,536 bytes; a longer input is refused as a sheet of the wrong size.
#![tactic(auto)]

ghost use Rattle.rules.specs.Faults.{Meets};
ghost use Rattle.verdict.specs.Printed.{printed};

use checker::verdict;
use sheet::Refusal;
use span::Span;
use std::io;
use std::io::Read;

/// The most bytes that are read.
const LIMIT: usize = 65_536;

fn main(rt: HostRuntime) -> io::Result<()> {
    let mut bytes = Vec::new(rt.alloc());
    rt.stdin().take(LIMIT as u64 + 1).read_to_end(&mut bytes)?;
    match judged(bytes.as_slice()) {
        Ok(places) => println!(rt; "taken {places}"),
        Err(refusal) => println!(rt; "refused {}", refusal.report()),
    }
}

// The verdict in spans, of an input that is not too long.
fn judged(bytes: &[u8]) -> Result<usize, Refusal>
    ensures { Meets result (printed bytes.now) }
{
    if bytes.len() > LIMIT {
        return Err(Refusal::SheetSize);
    }
    verdict::<Span>(bytes)
}
