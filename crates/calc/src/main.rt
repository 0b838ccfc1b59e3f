// Works the rules of every domain on lines of standard input, one answer a line:
//   DOMAIN work A OP B         the value, and then ` zero` and ` range` where it warns; OP is + - * / < <= = !=
//   DOMAIN narrow A REL B      the value that is left, or `none`; REL is < <= = != > >=
//   DOMAIN covers A B          `yes` or `no`
//   DOMAIN value LO HI         the value of LO to HI
//   DOMAIN anything            the value that describes every integer
//   DOMAIN width               how many bytes a cell has
//   DOMAIN read BYTE ..        the value of a cell of these bytes, at most 64, or `none`
//   DOMAIN blank INDEX         the byte of the blank cell at an index
// A domain goes by its name in the crate `catalog`, and values are written as the crate `notation` says.
// A blank line, or one that begins with '#', prints nothing. A line that is not understood prints `error` and its number.
#![tactic(auto)]

mod commands;

use commands::answered;
use notation::{DomainName, InNotation, Notation, run_in};

fn main(rt: HostRuntime) -> anyhow::Result<()> {
    for (index, line) in rt.lines(rt.alloc()).enumerate() {
        let line = line?;
        if !line.as_str().trim().is_empty() && !line.as_str().starts_with('#') {
            let words: Vec<&str> = line.as_str().split_whitespace().collect(rt.alloc())?;
            if !understood(&rt, words.as_slice())? {
                println!(rt; "error {}", index + 1)?;
            }
        }
    }
    Ok(())
}

// Prints what the words answer; false where they are not understood, a yes or no with no value beside it.
fn understood(rt: &HostRuntime, words: &[&str]) -> anyhow::Result<bool> {
    let [name, words @ ..] = words else {
        return Ok(false);
    };
    match name.parse::<DomainName>() {
        Ok(domain) => run_in(domain, &mut Responding { rt, words }),
        Err(_) => Ok(false),
    }
}

// The words of a command behind the domain's name, whose answer is to be printed.
#[derive(Clone, Copy)]
struct Responding<'a> {
    rt: &'a HostRuntime,
    words: &'a [&'a str],
}

impl InNotation for Responding<'_> {
    type Answer = anyhow::Result<bool>;

    fn run<D: Notation>(&mut self) -> anyhow::Result<bool> {
        match answered::<D>(self.words) {
            Some(answer) => {
                println!(self.rt; "{answer}")?;
                Ok(true)
            }
            None => Ok(false),
        }
    }
}
