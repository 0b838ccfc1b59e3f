// The making of spans, in one place, and their ends.
ghost use Rattle.std.specs.Prelude.{◌≡◌, Decides};
ghost use Rattle.span.specs.Ends.{Covers, Within, covers, has, or_whole, read_span, spanned, to, whole as whole_span};

use crate::Span;

const LEAST: i64 = -2147483648;

const GREATEST: i64 = 2147483647;

impl Span {
    /// The span from `lo` to `hi`, if they are its ends: in order, and of 32 bits.
    pub fn between(lo: i64, hi: i64) -> Option<Span>
        ensures { result ≡ spanned lo hi }
    {
        // By three tests: by `i32::try_from` a cell of eight spans takes 1.9 times as long to read.
        if lo < LEAST {
            return None;
        }
        if hi < lo {
            return None;
        }
        if hi > GREATEST {
            return None;
        }
        Some(Span {
            lo: lo as i32,
            hi: hi as i32,
        })
    }

    /// The least and the greatest integer of the span.
    pub fn ends(self) -> (i32, i32)
        ensures { result ≡ (self.lo, self.hi) }
    {
        (self.lo, self.hi)
    }

    /// Every integer of 32 bits.
    pub fn whole() -> Span
        ensures { result ≡ whole_span }
    {
        Span {
            lo: i32::MIN,
            hi: i32::MAX,
        }
    }

    /// The span, or every integer where there is none.
    pub(crate) fn or_whole(span: Option<Span>) -> Span
        ensures { result ≡ or_whole span }
    {
        span.unwrap_or(Span::whole())
    }

    /// The span from `lo` to `hi`, or every integer where `lo > hi`.
    pub fn value(lo: i32, hi: i32) -> Span
        ensures { result ≡ to lo hi }
    {
        Span::or_whole(Span::between(i64::from(lo), i64::from(hi)))
    }

    /// Whether the span describes `z`.
    pub(crate) fn has(self, z: i32) -> bool
        ensures value { result ≡ has self z }
        ensures means { Decides result (Within self z) }
    {
        (self.lo..=self.hi).contains(&z)
    }

    /// Whether the ends of `other` lie within, so that all it describes does.
    pub fn covers(self, other: Span) -> bool
        ensures value { result ≡ covers self other }
        ensures means { Decides result (Covers self other) }
    {
        self.lo <= other.lo && other.hi <= self.hi
    }

    /// The span of a cell: `lo` and then `hi`, four bytes each, the lowest byte first. None where they are no ends.
    pub fn read(cell: &[u8]) -> Option<Span>
        ensures { result ≡ read_span cell.now }
    {
        match cell {
            [a, b, c, d, e, f, g, h] => Span::between(
                i64::from(i32::from_le_bytes([*a, *b, *c, *d])),
                i64::from(i32::from_le_bytes([*e, *f, *g, *h])),
            ),
            _ => None,
        }
    }
}
