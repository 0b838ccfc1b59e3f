// The values of the domain of strides.
ghost use Rattle.std.specs.Prelude.{◌≡◌, true};
ghost use Rattle.stride.specs.Fitting.{fitting};

/// A modulus and a remainder. With the modulus 0 the stride is constant: it describes the remainder alone.
/// Otherwise the remainder lies from 0 up to the modulus, and the stride describes each integer
/// that differs from the remainder by a multiple of the modulus.
#[derive(Clone, Copy)]
pub struct Stride {
    pub(crate) modulus: u16,
    pub(crate) remainder: i32,
    ghost fits: { fitting modulus remainder ≡ true },
}
