// Making strides, and working the operations on their moduli and remainders.
ghost use Rattle.std.specs.Prelude.{◌≡◌, ◌<◌};
ghost use Rattle.number.specs.Exact.{worked};
ghost use Rattle.stride.specs.Strides.{made, anything, value, covers, works, narrows, strided as strided_of, constants, moved as moved_to, steps};

use super::divisors::{gcd, is_multiple, reduced};
use super::value::Stride;
use domain::Worked;
use number::{Op, Relation, Trap, difference, product, sum};

impl Stride {
    /// The stride of a modulus and a remainder, if they fit together.
    pub fn new(modulus: u16, remainder: i32) -> Option<Stride>
        ensures { result ≡ made modulus remainder }
    {
        // Two tests, both always made: by `contains` of a range a cell takes 1.6 times the instructions to read.
        if modulus == 0 || (0 <= remainder) & (remainder < i32::from(modulus)) {
            Some(Stride { modulus, remainder })
        } else {
            None
        }
    }

    /// The modulus; 0 where the stride is constant.
    pub fn modulus(&self) -> u16
        ensures { result ≡ self.now.modulus }
    {
        self.modulus
    }

    /// The remainder.
    pub fn remainder(&self) -> i32
        ensures { result ≡ self.now.remainder }
    {
        self.remainder
    }

    /// The stride that describes every integer.
    pub(crate) fn whole() -> Stride
        ensures { result ≡ anything }
    {
        Stride {
            modulus: 1,
            remainder: 0,
        }
    }

    /// The stride of a modulus and a remainder that are known to fit together.
    pub(crate) fn strided(modulus: u16, remainder: i32) -> Stride
        ensures { result ≡ strided_of modulus remainder }
    {
        Stride::new(modulus, remainder).unwrap_or(Stride::whole())
    }

    /// The integers from `lo` to `hi`: one is constant, and of more nothing is known.
    pub(crate) fn between(lo: i32, hi: i32) -> Stride
        ensures { result ≡ value lo hi }
    {
        if lo == hi {
            Stride::strided(0, lo)
        } else {
            Stride::whole()
        }
    }
}

/// Whether `a` describes all that `b` describes.
pub fn covering(a: Stride, b: Stride) -> bool
    ensures { result ≡ covers a b }
{
    let apart = difference(b.remainder, a.remainder).unsigned_abs();
    is_multiple(a.modulus, u64::from(b.modulus)) && is_multiple(a.modulus, apart)
}

/// What the operation gives on two strides, with the zero warning and the range warning.
pub fn working(op: Op, a: Stride, b: Stride) -> Worked<Stride>
    ensures { result ≡ works op a b }
{
    if a.modulus == 0 && b.modulus == 0 {
        work_constants(op, a.remainder, b.remainder)
    } else {
        work_moving(op, gcd(a.modulus, b.modulus), a.remainder, b.remainder)
    }
}

/// What is left of `a` where it stands in the relation `rel` to `b`.
pub fn narrowing(a: Stride, rel: Relation, b: Stride) -> Option<Stride>
    ensures { result ≡ narrows a rel b }
{
    if rel == Relation::Equal && covering(a, b) {
        Some(b)
    } else if a.modulus == 0 && b.modulus == 0 && !rel.holds(a.remainder, b.remainder) {
        None
    } else {
        Some(a)
    }
}

/// Two constants are worked exactly, and warn exactly where they trap.
fn work_constants(op: Op, a: i32, b: i32) -> Worked<Stride>
    ensures { result ≡ constants (worked op a b) }
{
    match op.apply(a, b) {
        Ok(exact) => (Stride::strided(0, exact), false, false),
        Err(Trap::Zero) => (Stride::whole(), true, false),
        Err(Trap::Range) => (Stride::whole(), false, true),
    }
}

/// The stride of the integers that differ from `exact` by a multiple of `modulus`, with the range warning.
fn moved(modulus: u16, exact: i64) -> Worked<Stride>
    requires { 0 < modulus }
    ensures { result ≡ moved_to modulus exact }
{
    (
        Stride::strided(modulus, reduced(exact, modulus)),
        false,
        true,
    )
}

/// The operation on strides with the remainders `a` and `b`, whose moduli have the greatest common divisor `gcd`.
fn work_moving(op: Op, gcd: u16, a: i32, b: i32) -> Worked<Stride>
    requires { 0 < gcd }
    ensures { result ≡ steps op gcd a b }
{
    match op {
        Op::Add => moved(gcd, sum(a, b)),
        Op::Sub => moved(gcd, difference(a, b)),
        Op::Mul => moved(gcd, product(a, b)),
        Op::Div => (Stride::whole(), b == 0, true),
        _ => (Stride::whole(), false, false),
    }
}
