// The text form of a sheet: its lines are taken in one by one, and the sheet is made of what they say.
// A draft names the first mistake with its line; docs/TEXT.md has the form, and the crate `lines` its lines.
// The sheet has its parts right behind one another and nothing after them, and is read back before it is given.
#![tactic(auto)]

mod drafts;
mod entries;

pub use drafts::Draft;
