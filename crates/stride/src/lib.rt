// Strides: what is known of a variable by one modulus and one remainder.
// A stride is a domain; its rules stand in specs/Strides.antt, and the contracts below say what they come to.
#![tactic(auto)]

mod divisors;
mod value;
mod working;

ghost use Rattle.std.specs.Prelude.{◌≡◌, true, false, ℤ, pos, Decides};
ghost use Rattle.stride.specs.Rules.{NoMore, FromTo, Works, Narrows, Examples};
ghost use Rattle.stride.specs.Strides as Strides;
ghost use Rattle.stride.specs.StrideLaws.{stride-order, stride-reading, stride-working, stride-narrowing};

use domain::{Domain, Worked};
use number::{Op, Relation};
pub use value::Stride;
use working::{covering, narrowing, working};

impl Domain for Stride {
    ghost describes = { Strides.describes };

    ghost ops = { Strides.stride_ops };

    ghost order = { stride-order };

    ghost reading = { stride-reading };

    ghost working = { stride-working };

    ghost narrowing = { stride-narrowing };

    fn width() -> usize {
        6
    }

    fn blank(index: usize) -> u8 {
        if index == 0 { 1 } else { 0 }
    }

    fn read(cell: &[u8]) -> Option<Stride> {
        match cell {
            [m0, m1, r0, r1, r2, r3] => Stride::new(
                u16::from_le_bytes([*m0, *m1]),
                i32::from_le_bytes([*r0, *r1, *r2, *r3]),
            ),
            _ => None,
        }
    }

    fn anything() -> Stride {
        Stride::whole()
    }

    fn value(lo: i32, hi: i32) -> Stride
        ensures model { result ≡ Strides.value lo hi }
        ensures means { FromTo lo hi result }
    {
        Stride::between(lo, hi)
    }

    fn covers(a: Stride, b: Stride) -> bool
        ensures model { result ≡ Strides.covers a b }
        ensures means { Decides result (NoMore b a) }
    {
        covering(a, b)
    }

    fn work(op: Op, a: Stride, b: Stride) -> Worked<Stride>
        ensures model { result ≡ Strides.works op a b }
        ensures means { Works op a b result }
    {
        working(op, a, b)
    }

    fn narrow(a: Stride, rel: Relation, b: Stride) -> Option<Stride>
        ensures model { result ≡ Strides.narrows a rel b }
        ensures means { Narrows a rel b result }
    {
        narrowing(a, rel, b)
    }
}

/// Works the odd numbers plus those that leave 3 by 4: the even numbers, with the range warning.
pub fn example_sum() -> Worked<Stride>
    ensures answers { result ≡ (Strides.strided 2 (pos 0), false, true) }
    ensures means { Examples }
{
    <Stride as Domain>::work(Op::Add, Stride::strided(2, 1), Stride::strided(4, 3))
}
