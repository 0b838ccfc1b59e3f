// Results of 32-bit integers before their range is looked at: none of these can overflow in 64 bits.
ghost use Rattle.std.specs.Prelude.{◌≡◌, ◌+ℤ◌, ◌-ℤ◌, ◌*ℤ◌, int_div};
ghost use Rattle.number.specs.Means.{TowardZero};
ghost use Rattle.number.specs.Exact.{in_range, truth as truth_of};

use crate::Trap;

pub fn sum(a: i32, b: i32) -> i64
    ensures { result ≡ a +ℤ b }
{
    i64::from(a) + i64::from(b)
}

pub fn difference(a: i32, b: i32) -> i64
    ensures { result ≡ a -ℤ b }
{
    i64::from(a) - i64::from(b)
}

pub fn product(a: i32, b: i32) -> i64
    ensures { result ≡ a *ℤ b }
{
    a as i64 * b as i64
}

/// Toward zero; by 0 it means nothing, and is 0.
pub fn quotient(a: i32, b: i32) -> i64
    ensures value { result ≡ int_div a b }
    ensures means { TowardZero a b result }
{
    if b == 0 { 0 } else { a as i64 / b as i64 }
}

/// The integer as one of 32 bits, or the range trap.
pub fn fitted(z: i64) -> Result<i32, Trap>
    ensures { result ≡ in_range z }
{
    i32::try_from(z).or(Err(Trap::Range))
}

/// 1 where a comparison holds, else 0.
pub fn truth(test: bool) -> i32
    ensures { result ≡ truth_of test }
{
    i32::from(test)
}
