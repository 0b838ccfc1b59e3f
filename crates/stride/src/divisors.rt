// Divisors of 16-bit moduli.
ghost use Rattle.std.specs.Prelude.{◌≡◌, ◌<◌, pos};
ghost use Rattle.std.specs.Int.{int_rem_euclid};
ghost use Rattle.arith.specs.Residues.{gcd as gcd_of};
ghost use Rattle.stride.specs.Divisors.{is_multiple, Greatest};

/// The greatest common divisor: that of 0 and m is m.
pub fn gcd(a: u16, b: u16) -> u16
    ensures value { result ≡ gcd_of a b }
    ensures means { Greatest a b result }
{
    let mut low = b;
    let mut high = a;
    // Euclid's algorithm, which counts no index.
    while low != 0 {
        let rest = high % low;
        high = low;
        low = rest;
    }
    high
}

/// Whether `n` is a multiple of `divisor`; 0 has the one multiple 0.
pub fn is_multiple(divisor: u16, n: u64) -> bool
    ensures { result ≡ is_multiple divisor n }
{
    match divisor {
        0 => n == 0,
        1 => true, // no division: most strides in a table are "anything"
        _ => n % u64::from(divisor) == 0,
    }
}

/// The remainder of `n` by `modulus`, from 0 up to it.
pub fn reduced(n: i64, modulus: u16) -> i32
    requires { 0 < modulus }
    ensures { result ≡ int_rem_euclid n (pos modulus) }
{
    n.rem_euclid(i64::from(modulus)) as i32
}
