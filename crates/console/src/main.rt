// A bay that is driven from standard input, one call a line, with one line of answer for each:
//   offer DOMAIN HEX    taken PLACES
//   start, stop         done
//   set INPUT VALUE     done
//   step [READING]      at PLACE, ended, trap zero PLACE or trap range PLACE
//   show VARIABLE       running PLACE VALUE or held PLACE VALUE
// Any call may answer `refused NUMBER PLACE WAY VARIABLE`; with the argument `explain` a line in words follows, which
// begins with two blanks. A blank line, or one that begins with '#', prints nothing; any other line prints
// `error LINE`, with the line's number from 1.
#![tactic(auto)]

use bay::{Bay, stands};
use catalog::Shipped;
use dawn::morning_runs;
use hex::FromHexError;
use sheet::Refusal;
use std::alloc::AllocError;
use std::io::{BufRead, BufReader};
use std::{env, fmt};

mod commands;
mod offers;

use commands::{Command, parsed};
use offers::Offering;

fn main(rt: HostRuntime) -> anyhow::Result<()> {
    stands::<Shipped>();
    morning_runs();
    let explain = wants_words(&rt)?;
    let mut bay = Bay::new();
    let lines = BufReader::new(rt.alloc(), rt.stdin())?.lines(rt.alloc());
    for (index, line) in lines.enumerate() {
        let line = line?;
        let number = index + 1;
        let text = line.as_str().trim();
        if text.is_empty() || text.starts_with('#') {
            continue;
        }
        match parsed(text) {
            Some(command) => answer(&rt, &mut bay, command, explain, number)?,
            None => println!(rt; "error {number}")?,
        }
    }
    Ok(())
}

// Whether refusals are told in words too: a yes or no with no value beside it.
fn wants_words(rt: &HostRuntime) -> anyhow::Result<bool> {
    let mut words = env::args(rt)?.skip(1);
    Ok(words.any(|word| word.as_str() == "explain"))
}

// Makes the call and prints its answer.
fn answer(
    rt: &HostRuntime,
    bay: &mut Bay,
    command: Command<'_>,
    explain: bool,
    number: usize,
) -> anyhow::Result<()> {
    match command {
        Command::Offer { domain, digits } => match hex::decode(rt.alloc(), digits) {
            Ok(bytes) => {
                let sheet = bytes.as_slice();
                let res = domain.run(&mut Offering { bay, sheet });
                told(rt, res.map(|places| Taken(places)), explain)
            }
            Err(FromHexError::OutOfMemory) => Err(AllocError.into()),
            Err(_) => Ok(println!(rt; "error {number}")?),
        },
        Command::Start => told(rt, bay.start().map(|()| "done"), explain),
        Command::Stop => told(rt, bay.stop().map(|()| "done"), explain),
        Command::Set { input, value } => told(rt, bay.set(input, value).map(|()| "done"), explain),
        Command::Step { reading } => told(rt, bay.step(reading), explain),
        Command::Show { variable } => told(rt, bay.show(variable), explain),
    }
}

// The number of places of a sheet that is taken.
#[derive(Clone, Copy)]
struct Taken(usize);

impl fmt::Display for Taken {
    fn fmt<W: fmt::Write>(&self, f: &mut fmt::Formatter<W>) -> fmt::Result {
        write!(f, "taken {}", self.0)
    }
}

// Prints an answer, or the refusal.
fn told<T: fmt::Display + Drop>(
    rt: &HostRuntime,
    res: Result<T, Refusal>,
    explain: bool,
) -> anyhow::Result<()> {
    match res {
        Ok(answer) => println!(rt; "{answer}")?,
        Err(refusal) => {
            println!(rt; "refused {}", refusal.report())?;
            if explain {
                println!(rt; "  {refusal}")?;
            }
        }
    }
    Ok(())
}
