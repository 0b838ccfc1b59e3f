// Operations on spans.
ghost use Rattle.std.specs.Prelude.{◌≡◌, ◌&&◌, negsuc};
ghost use Rattle.number.specs.Exact.{exact, least};
ghost use Rattle.span.specs.Ends.{has};
ghost use Rattle.span.specs.Works.{always, cornered, highest, judged, lowest, ranged, warned, works};

use crate::Span;
use domain::Worked;
use number::{Op, Relation};

/// The least and the greatest result over the four pairs of ends.
fn corners(op: Op, a: Span, b: Span) -> (i64, i64)
    ensures low { result.0 ≡ lowest (exact op) a b }
    ensures high { result.1 ≡ highest (exact op) a b }
{
    let w = op.exact(a.lo, b.lo);
    let x = op.exact(a.lo, b.hi);
    let y = op.exact(a.hi, b.lo);
    let z = op.exact(a.hi, b.hi);
    (w.min(x).min(y.min(z)), w.max(x).max(y.max(z)))
}

/// The span between the corners, if they are of 32 bits.
fn cornered(op: Op, a: Span, b: Span) -> Option<Span>
    ensures { result ≡ cornered op a b }
{
    let (lo, hi) = corners(op, a, b);
    Span::between(lo, hi)
}

/// Whether the relation holds between every integer of `a` and every integer of `b`.
fn always(rel: Relation, a: Span, b: Span) -> bool
    ensures { result ≡ always rel a b }
{
    match rel {
        Relation::Less => a.hi < b.lo,
        Relation::AtMost => a.hi <= b.lo,
        Relation::Equal => a.hi <= b.lo && b.hi <= a.lo,
        Relation::Unequal => a.hi < b.lo || b.hi < a.lo,
        Relation::Greater => b.hi < a.lo,
        Relation::AtLeast => b.hi <= a.lo,
    }
}

/// What a comparison gives: 1 where it always holds, 0 where it never does, else 0 or 1.
fn judged(rel: Relation, a: Span, b: Span) -> Span
    ensures { result ≡ judged rel a b }
{
    if always(rel, a, b) {
        Span::value(1, 1)
    } else if always(rel.opposite(), a, b) {
        Span::value(0, 0)
    } else {
        Span::value(0, 1)
    }
}

/// A sum, difference or product: the span between the corners, or the range warning.
fn ranged(span: Option<Span>) -> Worked<Span>
    ensures { result ≡ ranged span }
{
    match span {
        Some(span) => (span, false, false),
        None => (Span::whole(), false, true),
    }
}

/// A quotient of −2^31 by −1 is possible.
fn may_overflow(a: Span, b: Span) -> bool
    ensures { result ≡ has a least && has b (negsuc 0) }
{
    a.has(i32::MIN) && b.has(-1)
}

/// A value with its warnings: with a warning, every integer.
fn warned(zero: bool, range: bool, span: Span) -> Worked<Span>
    ensures { result ≡ warned zero range span }
{
    if zero || range {
        (Span::whole(), zero, range)
    } else {
        (span, zero, range)
    }
}

/// A quotient: it warns of zero where `b` describes 0, and of the range where `a` describes −2^31 and `b` −1.
fn quotient(a: Span, b: Span) -> Worked<Span>
    ensures { result ≡ works Op.Div a b }
{
    warned(
        b.has(0),
        may_overflow(a, b),
        Span::or_whole(cornered(Op::Div, a, b)),
    )
}

/// What an operation gives on the integers of two spans: a span, the zero warning and the range warning.
pub fn work(op: Op, a: Span, b: Span) -> Worked<Span>
    ensures { result ≡ works op a b }
{
    match op {
        Op::Add | Op::Sub | Op::Mul => ranged(cornered(op, a, b)),
        Op::Div => quotient(a, b),
        Op::IsLess => (judged(Relation::Less, a, b), false, false),
        Op::IsAtMost => (judged(Relation::AtMost, a, b), false, false),
        Op::IsEqual => (judged(Relation::Equal, a, b), false, false),
        Op::IsUnequal => (judged(Relation::Unequal, a, b), false, false),
    }
}
