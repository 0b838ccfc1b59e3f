// A sheet: the bytes in which an office hands over a routine, its inputs and its table.
// The view lays the three parts out over the borrowed bytes and reads inputs and rows; it believes nothing.
// Whatever is wrong is one refusal: a number with its place.
#![tactic(auto)]

mod inputs;
mod layouts;
mod parts;
mod reading;
mod refusals;
mod rows;
mod views;
mod words;

pub use parts::{Part, PartName};
pub use refusals::{Refusal, Report};
pub use views::{Layout, Sheet};
pub use words::{InputLines, RowLines};
