ghost use Rattle.std.specs.Prelude.{◌≡◌};
ghost use Rattle.refusals.specs.Answer.{answer_as};
ghost use Rattle.codes.specs.Making.{decimal_answer};
ghost use Rattle.codes.specs.Means.{number_of};
ghost use Rattle.codes.specs.Refusals.{key_told};

use crate::decimal::{Amount, Decimal, Digits, Exponent};
use crate::fault::KeyFault;
use crate::sign::Sign;

impl Decimal {
    // The decimal with this sign, exponent and digits; refused by 1, 2 and 3 in turn.
    pub fn new(sign: Sign, exponent: i32, digits: &[u8]) -> Result<Decimal, KeyFault>
        ensures { answer_as number_of key_told result ≡ decimal_answer sign exponent digits.now }
    {
        let digits = Digits::new(digits)?;
        let exponent = Exponent::new(exponent)?;
        Ok(Decimal::Amount(Amount {
            sign,
            exponent,
            digits,
        }))
    }
}
