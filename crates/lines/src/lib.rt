// The lines of a sheet's text: their words, the rows and inputs that these are, and the mistakes in them.
// It is what `Display` of a row and of an input prints (crate `machine`), the other way round.
// The crate `text` makes a sheet of the lines; docs/TEXT.md has the form.
#![tactic(auto)]

mod inputs;
mod mistakes;
mod rows;
mod words;

pub use inputs::input_of;
pub use mistakes::{Mistake, Reason};
pub use rows::{Counts, row_of};
pub use words::{numbered, words_of};
