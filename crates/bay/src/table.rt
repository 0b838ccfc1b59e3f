// A table of fixed size.
ghost use Rattle.std.specs.Prelude.{◌≡◌, ◌≤◌};

mod items;

use std::alloc::AllocError;

/// A list of at most `N` items: the first `count` of them are held, the others are left over.
// An array with its count, since the bay asks for no memory and is copied; `ArrayVec` of the library is not.
#[derive(Copy)]
pub struct Table<T, const N: usize> {
    items: [T; N],
    count: usize,
    ghost fits: { count ≤ N },
}

// By hand, since `Clone` is not derived for a generic struct with a ghost field.
impl<T: Copy, const N: usize> Clone for Table<T, N> {
    ghost is_clone = { λ x y. y ≡ x };

    ghost is_infallible = { λ _. Unit {0} };

    fn clone(&self) -> Result<Self, AllocError> {
        Ok(*self)
    }
}
