// Routines as bytes: a row in its 12 bytes, an input in its 9, and a whole sheet.
// It is what the crate `sheet` reads, the other way round: the parts of a sheet that is written stand right behind
// one another, from the head on, and nothing stands after the table.
#![tactic(auto)]

mod records;
mod sheets;

pub use records::{input_bytes, row_bytes};
pub use sheets::{Unwritten, sheet_bytes};
