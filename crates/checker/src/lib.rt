// The check: one pass over a sheet in any domain, which takes it or names the first rule that it breaks.
// Cells are read from the borrowed bytes as the check comes to them; nothing is stored and nothing is allocated.
// What the answers have to be is said in the crate `rules`; here is the code that gives them.
#![tactic(auto)]

mod cells;
mod changes;
mod entries;
mod grids;
mod landing;
mod places;
mod routes;
mod starts;
mod verdicts;

pub use routes::{input_on, row_on};
pub use verdicts::{taken, verdict};
