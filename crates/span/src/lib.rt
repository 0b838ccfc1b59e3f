// Spans: what is known of an integer by its least and its greatest possible value.
#![tactic(auto)]

ghost use Rattle.std.specs.Prelude.{◌≤ℤ◌};
ghost use Rattle.number.specs.Exact.{least, greatest};

mod interface;
mod making;
mod narrowing;
mod working;

pub use interface::examples;

/// The integers from `lo` to `hi`, both of 32 bits.
#[derive(Clone, Copy)]
pub struct Span {
    lo: i32,
    hi: i32,
    ghost low: { least ≤ℤ lo },
    ghost ordered: { lo ≤ℤ hi },
    ghost high: { hi ≤ℤ greatest },
}
