ghost use Rattle.std.specs.Prelude.{◌≡◌};
ghost use Rattle.inline.specs.Listed.{listed};
ghost use Rattle.refusals.specs.Answer.{answer_as};
ghost use Rattle.codes.specs.Decimals.{Row, Trim};
ghost use Rattle.codes.specs.Making.{centimal, digits_answer, plain_digits};
ghost use Rattle.codes.specs.Refusals.{key_told};

use crate::fault::KeyFault;
use inline::Inline;

// The digits of a decimal, in base 100: 1 to 16, of which neither the first nor the last is 0.
#[derive(Clone, Copy)]
pub struct Digits {
    pub(crate) list: Inline<u8, 16>,
    ghost row: { Row (listed list) },
    ghost trim: { Trim (listed list) },
}

impl Digits {
    // These digits; refused by 1 and 2 in turn.
    pub(crate) fn new(digits: &[u8]) -> Result<Digits, KeyFault>
        ensures { answer_as (λ d. listed d.list) key_told result ≡ digits_answer digits.now }
    {
        if !are_plain(digits) {
            return Err(KeyFault::Digits);
        }
        let list = Inline::from_slice(digits).ok_or(KeyFault::DigitCount)?;
        Ok(Digits { list })
    }
}

// Whether each digit is 0 to 99.
fn are_centimal(digits: &[u8]) -> bool
    ensures { result ≡ centimal digits.now }
{
    digits.iter().all(|d| *d < 100)
}

// Whether there is a digit, none is above 99, and neither the first nor the last is 0.
fn are_plain(digits: &[u8]) -> bool
    ensures { result ≡ plain_digits digits.now }
{
    match digits {
        [] => false,
        [first, ..] => are_centimal(digits) && *first != 0 && digits[digits.len() - 1] != 0,
    }
}
