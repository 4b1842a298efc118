ghost use Rattle.std.specs.Prelude.{◌≡◌, ◌≤◌};

use std::alloc::AllocError;

// At most `N` values, the first `count` of `items`. What lies behind them counts for nothing. No memory may be asked for below the program: this is its one array with a length beside it.
pub struct Inline<T, const N: usize> {
    pub items: [T; N],
    pub count: usize,
    ghost within: { count ≤ N },
}

// By hand, since no derive goes over a ghost field of a generic struct.
impl<T: Copy, const N: usize> Copy for Inline<T, N> {}

// The same list, for which no memory is asked.
impl<T: Copy, const N: usize> Clone for Inline<T, N> {
    ghost is_clone = { λ a b. b ≡ a };

    ghost is_infallible = { λ _. Unit {0} };

    fn clone(&self) -> Result<Inline<T, N>, AllocError> {
        Ok(*self)
    }
}
