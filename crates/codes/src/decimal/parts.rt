ghost use Rattle.std.specs.Prelude.{◌≡◌};
ghost use Rattle.inline.specs.Listed.{listed};

use crate::decimal::Amount;
use crate::sign::Sign;

// The parts of a decimal other than zero.
impl Amount {
    pub fn sign(&self) -> Sign
        ensures { result ≡ self.now.sign }
    {
        self.sign
    }

    pub fn exponent(&self) -> i32
        ensures { result ≡ self.now.exponent.power }
    {
        self.exponent.power
    }

    // The digits in base 100, the first one first.
    pub fn digits(&self) -> &[u8]
        ensures { result.now ≡ listed self.now.digits.list }
    {
        self.digits.list.as_slice()
    }
}
