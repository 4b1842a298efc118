ghost use Rattle.std.specs.Prelude.{◌≡◌, ◌<◌, ◌≤◌, [], ◌∷◌, ◌++◌, length, take, MatchOption, MatchResult};
ghost use Rattle.inline.specs.Listed.{listed};

use crate::list::Inline;

// A list has no place left.
#[derive(Clone, Copy, PartialEq, Eq, Debug)]
pub struct Full;

impl<T: Copy + Default, const N: usize> Inline<T, N> {
    // A list without values.
    pub fn new() -> Inline<T, N>
        ensures { listed result ≡ [] }
    {
        Inline {
            items: [T::default(); N],
            count: 0,
        }
    }

    // The first of these values, as many as there is place for.
    pub fn from_front(values: &[T]) -> Inline<T, N>
        ensures { listed result ≡ take N values.now }
    {
        let mut items = [T::default(); N];
        let count = values.len().min(N);
        let all = &mut items[..];
        all[0..count].copy_from_slice(&values[0..count]);
        Inline { items, count }
    }

    // These values, or None where they are too many. By name, as `new` and `from_front` are: three ways of making would be no plainer as traits.
    pub fn from_slice(values: &[T]) -> Option<Inline<T, N>>
        ensures { MatchOption result (N < length values.now) (λ list. listed list ≡ values.now) }
    {
        if values.len() > N {
            return None;
        }
        Some(Inline::from_front(values))
    }
}

impl<T: Copy, const N: usize> Inline<T, N> {
    // Adds a value behind the others. A full list stays as it is.
    pub fn push(&mut self, value: T) -> Result<(), Full>
        ensures { MatchResult result (λ _. (listed self.new ≡ listed self.old ++ value ∷ []) × (length (listed self.old) < N)) (λ _. (listed self.new ≡ listed self.old) × (length (listed self.old) ≡ N)) }
    {
        if self.count >= N {
            return Err(Full);
        }
        self.items[self.count] = value;
        self.count += 1;
        Ok(())
    }
}
