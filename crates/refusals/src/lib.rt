// Refusals by number: what every fault of every layer can tell of itself.
#![tactic(auto)]

ghost use Rattle.std.specs.Prelude.{◌≡◌, take};
ghost use Rattle.refusals.specs.Answer.{Told};
ghost use Rattle.refusals.specs.ToldBy.{told_by};

use inline::Inline;
use std::fmt;

mod refused;

pub use refused::Refused;

// A fault that has a number, with values beside it. A trait and not `From`: what a call over any fault tells is its ghost member.
pub trait Refusal {
    ghost told: { Self → Told };

    // The number and the values, for whoever reports the fault.
    fn refused(&self) -> Refused
        ensures { told_by result ≡ told self.now };
}

impl Refused {
    // A number and the values beside it, of which the first four count.
    pub fn new(number: u8, values: &[usize]) -> Refused
        ensures { told_by result ≡ (number, take 4 values.now) }
    {
        Refused {
            number,
            beside: Inline::from_front(values),
        }
    }
}

// The number, then each value behind a space.
impl fmt::Display for Refused {
    fn fmt<W: fmt::Write>(&self, f: &mut fmt::Formatter<W>) -> fmt::Result {
        let number = self.number;
        write!(f, "{number}")?;
        for value in self.beside.as_slice() {
            write!(f, " {value}")?;
        }
        Ok(())
    }
}
