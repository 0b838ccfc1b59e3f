// The pair of two domains: what is known in both ways at once.
ghost use Rattle.std.specs.Prelude.{◌≡◌};
ghost use Rattle.layers.specs.Pairs.{both, both_of, pair_ops};
ghost use Rattle.layers.specs.PairLaws.{pair-order, pair-working, pair-narrowing, pair-reading};

use domain::{Domain, Worked};
use number::{Op, Relation};

/// A value of each of two domains, which describes what both describe.
/// Its cell is the first's and then the second's; it warns only where both warn.
#[derive(Clone, Copy)]
pub struct Pair<A, B> {
    pub first: A,
    pub second: B,
}

/// A pair where there are both.
fn both_of<A: Copy, B: Copy>(first: Option<A>, second: Option<B>) -> Option<Pair<A, B>>
    ensures { result ≡ both_of first second }
{
    // A `match`: by `?` a cell of eight spans takes 1.6 times the instructions to read.
    match (first, second) {
        (Some(first), Some(second)) => Some(Pair { first, second }),
        _ => None,
    }
}

impl<A: Domain, B: Domain> Domain for Pair<A, B> {
    ghost describes = { both A.Domain.describes B.Domain.describes };

    ghost ops = { pair_ops A.Domain.ops B.Domain.ops };

    ghost order = { pair-order A.Domain.order B.Domain.order };

    ghost reading = { pair-reading A.Domain.reading B.Domain.reading };

    ghost working = { pair-working A.Domain.working B.Domain.working };

    ghost narrowing = { pair-narrowing A.Domain.narrowing B.Domain.narrowing };

    fn width() -> usize {
        let first = A::width();
        let second = B::width();
        if first == 0 || second == 0 || first + second > 64 {
            return 0;
        }
        first + second
    }

    fn blank(index: usize) -> u8 {
        if index >= Self::width() {
            return 0;
        }
        if index < A::width() {
            return A::blank(index);
        }
        B::blank(index - A::width())
    }

    fn read(cell: &[u8]) -> Option<Self> {
        if Self::width() == 0 || cell.len() != Self::width() {
            return None;
        }
        let (first, second) = cell.split_at(A::width());
        both_of(A::read(first), B::read(second))
    }

    fn anything() -> Self {
        Pair {
            first: A::anything(),
            second: B::anything(),
        }
    }

    fn value(lo: i32, hi: i32) -> Self {
        Pair {
            first: A::value(lo, hi),
            second: B::value(lo, hi),
        }
    }

    fn covers(a: Self, b: Self) -> bool {
        A::covers(a.first, b.first) & B::covers(a.second, b.second)
    }

    fn work(op: Op, a: Self, b: Self) -> Worked<Self> {
        let (first, first_zero, first_range) = A::work(op, a.first, b.first);
        let (second, second_zero, second_range) = B::work(op, a.second, b.second);
        (
            Pair { first, second },
            first_zero & second_zero,
            first_range & second_range,
        )
    }

    fn narrow(a: Self, rel: Relation, b: Self) -> Option<Self> {
        both_of(
            A::narrow(a.first, rel, b.first),
            B::narrow(a.second, rel, b.second),
        )
    }
}
