ghost use Rattle.std.specs.Prelude.{◌≡◌, ◌≤◌, length};
ghost use Rattle.inline.specs.Listed.{listed};

use crate::list::Inline;

impl<T: Copy, const N: usize> Inline<T, N> {
    // The values.
    pub fn as_slice(&self) -> &[T]
        ensures values { result.now ≡ listed self.now }
        ensures few { length (listed self.now) ≤ N }
    {
        let all = &self.items[..];
        &all[0..self.count]
    }
}
