// The lines that a person writes.
use catalog::DomainName;
use notation::{integer, number};

/// A call as it is written.
#[derive(Clone, Copy)]
pub enum Command<'a> {
    Offer { domain: DomainName, digits: &'a str },
    Start,
    Stop,
    Set { input: usize, value: i32 },
    Step { reading: i32 },
    Show { variable: usize },
}

/// What a line asks for, if it is a call: the verb, and just the words that it takes.
pub(crate) fn parsed(line: &str) -> Option<Command<'_>> {
    let mut words = line.split_whitespace();
    let verb = words.next()?;
    let first = words.next();
    let second = words.next();
    if words.next().is_some() {
        return None;
    }
    match (verb, first, second) {
        ("offer", Some(domain), Some(digits)) => Some(Command::Offer {
            domain: domain.parse().ok()?,
            digits,
        }),
        ("start", None, None) => Some(Command::Start),
        ("stop", None, None) => Some(Command::Stop),
        ("set", Some(input), Some(value)) => Some(Command::Set {
            input: number(input)?,
            value: integer(value)?,
        }),
        ("step", None, None) => Some(Command::Step { reading: 0 }),
        ("step", Some(reading), None) => Some(Command::Step {
            reading: integer(reading)?,
        }),
        ("show", Some(variable), None) => Some(Command::Show {
            variable: number(variable)?,
        }),
        _ => None,
    }
}
