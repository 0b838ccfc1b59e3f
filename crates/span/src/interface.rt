// Spans as a domain.
ghost use Rattle.std.specs.Prelude.{◌≡◌, true, false, pos, negsuc, Some};
ghost use Rattle.span.specs.Ends.{Within, to};
ghost use Rattle.span.specs.Examples.{Examples};
ghost use Rattle.span.specs.Means.{Compared, LeastOf, Left, Worked};
ghost use Rattle.span.specs.Works.{narrowed, works};
ghost use Rattle.span.specs.Model.{span_ops};
ghost use Rattle.span.specs.SpanLaws.{span-order, span-reading, span-working, span-narrowing};

use crate::{Span, narrowing, working};
use domain::{Domain, Worked};
use number::{Op, Relation};

const WIDTH: usize = 8;

/// The cell of every integer: the least and the greatest, the lowest byte first.
const BLANK: [u8; 8] = [0, 0, 0, 128, 255, 255, 255, 127];

impl Domain for Span {
    ghost describes = { Within };

    ghost ops = { span_ops };

    ghost order = { span-order };

    ghost reading = { span-reading };

    ghost working = { span-working };

    ghost narrowing = { span-narrowing };

    fn width() -> usize {
        WIDTH
    }

    fn blank(index: usize) -> u8 {
        if index < WIDTH { BLANK[index] } else { 0 }
    }

    fn read(cell: &[u8]) -> Option<Span> {
        Span::read(cell)
    }

    fn anything() -> Span {
        Span::whole()
    }

    fn value(lo: i32, hi: i32) -> Span {
        Span::value(lo, hi)
    }

    fn covers(a: Span, b: Span) -> bool {
        Span::covers(a, b)
    }

    fn work(op: Op, a: Span, b: Span) -> Worked<Span>
        ensures value { result ≡ works op a b }
        ensures means { Worked op a b result }
        ensures compares { Compared op a b result.0 }
    {
        working::work(op, a, b)
    }

    fn narrow(a: Span, rel: Relation, b: Span) -> Option<Span>
        ensures value { result ≡ narrowed a rel b }
        ensures means { LeastOf (Left a rel b) result }
    {
        narrowing::narrow(a, rel, b)
    }
}

/// The product of −3..2 and −4..5, which is −15..12, and what is left of −5..5 by ≠ and 0..0, which is −5..5.
pub fn examples() -> (Worked<Span>, Option<Span>)
    ensures product { result.0 ≡ (to (negsuc 14) (pos 12), false, false) }
    ensures hole { result.1 ≡ Some (to (negsuc 4) (pos 5)) }
    ensures table { Examples }
{
    (
        working::work(Op::Mul, Span::value(-3, 2), Span::value(-4, 5)),
        narrowing::narrow(Span::value(-5, 5), Relation::Unequal, Span::value(0, 0)),
    )
}
