// What a variable may be: a domain, the one interface that every kind of knowledge about a variable keeps.
// A domain's values each describe some integers. Its operations are said by one record of functions (specs/Model.antt),
// and four laws tie them to what the values describe (specs/Laws.antt). All that is built on a domain rests on these
// laws and on nothing else of it.
#![tactic(auto)]

ghost use Rattle.std.specs.Prelude.{◌≡◌, ℤ};
ghost use Rattle.domain.specs.Model.{Ops};
ghost use Rattle.domain.specs.Carrier.{Lawful, as_dom};
ghost use Rattle.domain.specs.Laws.{Order, Reading, Working, Narrowing};

use number::{Op, Relation};

pub mod unknown;

/// What working an operation gives: a value, whether the divisor may be 0, and whether the result may not fit 32 bits.
// A tuple, and no struct with names: a rule of the project.
pub type Worked<D> = (D, bool, bool);

/// Values that describe integers of 32 bits. Each method answers what the record `ops` says.
pub trait Domain: Copy {
    // The integers that a value describes.
    ghost describes: { Self → ℤ → Type 0 };

    ghost ops: { Ops Self };

    /// The bytes of a cell, 1 to 64, or 0 where no cell can hold a value.
    fn width() -> usize
        ensures { result ≡ ops.width };

    /// The byte at `index` of the cell that reads as "anything"; 0 at the width and beyond.
    fn blank(index: usize) -> u8
        ensures { result ≡ ops.blank index };

    /// The value that a cell holds, if it holds one.
    fn read(cell: &[u8]) -> Option<Self>
        ensures { result ≡ ops.reads cell.now };

    /// The value that describes every integer.
    fn anything() -> Self
        ensures { result ≡ ops.anything };

    /// A value that describes the integers from `lo` to `hi`; "anything" where `lo > hi`.
    fn value(lo: i32, hi: i32) -> Self
        ensures { result ≡ ops.value lo hi };

    /// Whether `a` is known to describe all that `b` describes.
    fn covers(a: Self, b: Self) -> bool
        ensures { result ≡ ops.covers a b };

    /// What `op` gives on the integers that `a` and `b` describe, with two warnings:
    /// that the divisor may be 0, and that the result may not fit 32 bits.
    fn work(op: Op, a: Self, b: Self) -> Worked<Self>
        ensures { result ≡ ops.works op a b };

    /// What is left of `a` where it stands in the relation `rel` to `b`; none where nothing is left.
    fn narrow(a: Self, rel: Relation, b: Self) -> Option<Self>
        ensures { result ≡ ops.narrows a rel b };

    ghost order: { Order describes ops };

    ghost reading: { Reading ops };

    ghost working: { Working describes ops };

    ghost narrowing: { Narrowing describes ops };
}

/// Every type with the trait is a lawful domain in the sense of specs/Carrier.antt.
pub fn lawful<D: Domain>()
    ensures { Lawful (as_dom D D.Domain.describes D.Domain.ops) }
{}
