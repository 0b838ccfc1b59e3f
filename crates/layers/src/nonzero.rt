// The mark that a value is not 0, over any domain.
ghost use Rattle.std.specs.Prelude.{◌≡◌, ◌||◌};
ghost use Rattle.layers.specs.Marks.{unless0, marking, marks_kept, nonzero_ops};
ghost use Rattle.layers.specs.NonzeroLaws.{nonzero-order, nonzero-reading, nonzero-working, nonzero-narrowing};

use domain::{Domain, Worked};
use number::{Op, Relation};

/// A value of a domain with a mark, both always there. Marked, it describes what the domain's value describes but for 0.
/// Its cell is the mark, a byte 0 or 1, and then the domain's cell.
#[derive(Clone, Copy)]
pub struct Nonzero<A> {
    pub marked: bool,
    pub inner: A,
}

/// A value with its mark, where there is a value.
fn marking_of<A: Copy>(marked: bool, inner: Option<A>) -> Option<Nonzero<A>>
    ensures { result ≡ marking marked inner }
{
    inner.map(|inner| Nonzero { marked, inner })
}

/// Whether what stands in the relation `rel` to what `b` describes cannot be 0:
/// it equals something that is not 0, or differs from something that is 0 alone.
fn marks_kept<A: Domain>(rel: Relation, b: Nonzero<A>) -> bool
    ensures { result ≡ marks_kept A.Domain.ops rel b }
{
    match rel {
        Relation::Equal => b.marked,
        Relation::Unequal => A::narrow(b.inner, Relation::Unequal, A::value(0, 0)).is_none(),
        _ => false,
    }
}

impl<A: Domain> Domain for Nonzero<A> {
    ghost describes = { unless0 A.Domain.describes };

    ghost ops = { nonzero_ops A.Domain.ops };

    ghost order = { nonzero-order A.Domain.order };

    ghost reading = { nonzero-reading A.Domain.reading };

    ghost working = { nonzero-working A.Domain.working };

    ghost narrowing = { nonzero-narrowing A.Domain.order A.Domain.narrowing };

    fn width() -> usize {
        match A::width() {
            0 | 64 => 0,
            width => width + 1,
        }
    }

    fn blank(index: usize) -> u8 {
        if Self::width() == 0 || index == 0 {
            return 0;
        }
        A::blank(index - 1)
    }

    fn read(cell: &[u8]) -> Option<Self> {
        let [mark, inner @ ..] = cell else {
            return None;
        };
        if Self::width() == 0 || *mark > 1 {
            return None;
        }
        marking_of(*mark == 1, A::read(inner))
    }

    fn anything() -> Self {
        Nonzero {
            marked: false,
            inner: A::anything(),
        }
    }

    fn value(lo: i32, hi: i32) -> Self {
        Nonzero {
            marked: lo <= hi && (0 < lo || hi < 0),
            inner: A::value(lo, hi),
        }
    }

    fn covers(a: Self, b: Self) -> bool {
        A::covers(a.inner, b.inner) & (!a.marked | b.marked)
    }

    fn work(op: Op, a: Self, b: Self) -> Worked<Self> {
        let (inner, zero, range) = A::work(op, a.inner, b.inner);
        let marked = op == Op::Mul && a.marked && b.marked;
        let zero = zero && !(op == Op::Div && b.marked);
        (Nonzero { marked, inner }, zero, range)
    }

    fn narrow(a: Self, rel: Relation, b: Self) -> Option<Self> {
        marking_of(
            a.marked | marks_kept(rel, b),
            A::narrow(a.inner, rel, b.inner),
        )
    }
}
