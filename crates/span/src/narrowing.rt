// What is left of a span where a relation holds.
ghost use Rattle.std.specs.Prelude.{◌≡◌};
ghost use Rattle.span.specs.Works.{narrowed, only};

use crate::Span;
use number::{Relation, difference, sum, truth};

/// Whether the span describes `z` and nothing else.
fn only(span: Span, z: i32) -> bool
    ensures { result ≡ only span z }
{
    span.lo == z && span.hi == z
}

/// What is left of `a` without the one integer that `b` describes: an end of it is taken off.
fn without(a: Span, b: Span) -> Option<Span>
    ensures { result ≡ narrowed a Relation.Unequal b }
{
    Span::between(
        sum(a.lo, truth(only(b, a.lo))),
        difference(a.hi, truth(only(b, a.hi))),
    )
}

/// The integers that both describe.
fn common(a: Span, b: Span) -> Option<Span>
    ensures { result ≡ narrowed a Relation.Equal b }
{
    Span::between(i64::from(a.lo.max(b.lo)), i64::from(a.hi.min(b.hi)))
}

/// The least span of the integers of `a` that stand in the relation to some integer of `b`.
pub fn narrow(a: Span, rel: Relation, b: Span) -> Option<Span>
    ensures { result ≡ narrowed a rel b }
{
    let lo = i64::from(a.lo);
    let hi = i64::from(a.hi);
    match rel {
        Relation::Less => Span::between(lo, hi.min(difference(b.hi, 1))),
        Relation::AtMost => Span::between(lo, hi.min(i64::from(b.hi))),
        Relation::Equal => common(a, b),
        Relation::Unequal => without(a, b),
        Relation::Greater => Span::between(lo.max(sum(b.lo, 1)), hi),
        Relation::AtLeast => Span::between(lo.max(i64::from(b.lo)), hi),
    }
}
