ghost use Rattle.std.specs.Prelude.{◌≡◌, ◌+◌};
ghost use Rattle.codes.specs.Laws.{counted};

// Where bytes stop being a code: the first byte that leaves all codes, or their number.
#[derive(Clone, Copy, PartialEq, Eq, Debug)]
pub struct Stop {
    pub at: usize,
}

impl Stop {
    // The same place in bytes that have `n` more in front, as far as a usize can tell it.
    pub fn behind(self, n: usize) -> Stop
        ensures { result.at ≡ counted (n + self.at) }
    {
        Stop {
            at: n.saturating_add(self.at),
        }
    }
}
