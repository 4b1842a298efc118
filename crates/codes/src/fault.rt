ghost use Rattle.std.specs.Prelude.{◌≡◌};
ghost use Rattle.codes.specs.Refusals.{key_told};
ghost use Rattle.codes.specs.declared.fault.KeyFault.TheVariants.{NoKey};

use crate::stop::Stop;
use refusals::{Refusal, Refused};

// What a call of this crate refuses by.
#[derive(Clone, Copy, PartialEq, Eq, Debug)]
pub enum KeyFault {
    // no digit, one above 99, or the first or the last is 0
    Digits,
    // more than 16 digits
    DigitCount,
    // an exponent beyond −240 to 240
    Exponent,
    // a text with a byte 00, in this column, counted from 1
    ZeroByte(usize),
    // a plan not of 1 to 8 columns, a record with another number of values, or no such column
    Columns,
    // a key of more than 120 bytes
    KeyLength,
    // more than 120 bytes to read as a key
    ReadLength,
    // bytes that are no key: the first byte at which no key goes on, or their number
    NoKey(usize),
    // an output too short
    Room,
}

impl Refusal for KeyFault {
    ghost told = { key_told };

    fn refused(&self) -> Refused {
        match self {
            KeyFault::Digits => Refused::new(1, &[]),
            KeyFault::DigitCount => Refused::new(2, &[]),
            KeyFault::Exponent => Refused::new(3, &[]),
            KeyFault::ZeroByte(column) => Refused::new(4, &[*column]),
            KeyFault::Columns => Refused::new(5, &[]),
            KeyFault::KeyLength => Refused::new(6, &[]),
            KeyFault::ReadLength => Refused::new(6, &[120]),
            KeyFault::NoKey(at) => Refused::new(7, &[*at]),
            KeyFault::Room => Refused::new(8, &[]),
        }
    }
}

impl From<Stop> for KeyFault {
    ghost from_gives = { λ s r. r ≡ NoKey s.at };

    fn from(stop: Stop) -> KeyFault {
        KeyFault::NoKey(stop.at)
    }
}
