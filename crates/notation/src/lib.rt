// Values of a domain as text and as the bytes of a cell, for every domain that ships.
// A span is written `-5..5`, a stride `2:1` with its modulus first, a value under nonzero with `!` before it where it
// is marked, and a pair as its two values joined by `&`. Values are made by the domains' own functions alone.
#![tactic(auto)]

mod cells;
mod digits;
mod numbers;
mod shipped;
mod values;

pub use catalog::DomainName;
pub use cells::{CellError, Cells};
pub use digits::Hexadecimal;
pub use numbers::{integer, number};
pub use shipped::{InNotation, push_value, run_in};
pub use values::{Notation, Written, parsed};
