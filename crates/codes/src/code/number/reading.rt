ghost use Rattle.std.specs.Prelude.{◌≡◌, ℕ, ◌<◌, ◌≤◌, List, ◌∷◌, Decides, ◌≢◌};
ghost use Rattle.codes.specs.Codes.{body_of, mantissa};
ghost use Rattle.codes.specs.Leads.{DecimalRead, DigitsRead, ExponentByte, HeadRead, Mark, other_sign};
ghost use Rattle.codes.specs.Sources.{Through, seen};

use crate::class::{Class, class_of};
use crate::decimal::{Amount, Decimal, Digits, Exponent};
use crate::sign::Sign;
use crate::source::{Source, see};
use crate::stop::Stop;
use inline::Inline;

// A decimal's sign and exponent, and how many bytes told them.
#[derive(Clone, Copy)]
pub struct Head {
    sign: Sign,
    exponent: Exponent,
    len: usize,
}

// An exponent from `least` to 240 in the first byte.
fn exponent_byte(source: Source, least: u8) -> Option<u8>
    ensures { ExponentByte least (seen source.entry) result }
{
    let (v, _) = source.split()?;
    if v < least || v > 240 {
        return None;
    }
    Some(v)
}

// A source as a decimal of this sign is read: complemented if it is negative.
fn signed(sign: Sign, source: Source<'_>) -> Source<'_>
    ensures { Through sign (seen source.entry) (seen result) }
{
    match sign {
        Sign::Negative => source.turned(),
        Sign::Positive => source,
    }
}

// The other sign.
fn opposite(sign: Sign) -> Sign
    ensures { result ≡ other_sign sign }
{
    match sign {
        Sign::Negative => Sign::Positive,
        Sign::Positive => Sign::Negative,
    }
}

// The sign and the exponent at the front of a decimal other than zero.
fn read_head(source: Source) -> Result<Head, Stop>
    ensures { HeadRead (seen source.entry) result }
{
    let (first, rest) = source.split().ok_or(Stop { at: 0 })?;
    match class_of(first) {
        Class::Near(sign, exponent) => Ok(Head {
            sign,
            exponent: Exponent {
                power: i32::from(exponent),
            },
            len: 1,
        }),
        Class::Far(sign) => {
            let v = exponent_byte(signed(sign, rest), 11).ok_or(Stop { at: 1 })?;
            Ok(Head {
                sign,
                exponent: Exponent {
                    power: i32::from(v),
                },
                len: 2,
            })
        }
        Class::Small(sign) => {
            let v = exponent_byte(signed(opposite(sign), rest), 1).ok_or(Stop { at: 1 })?;
            Ok(Head {
                sign,
                exponent: Exponent {
                    power: -i32::from(v),
                },
                len: 2,
            })
        }
        _ => Err(Stop { at: 0 }),
    }
}

// Whether a byte can stand for the digit behind `i` others.
fn is_mark(i: usize, b: u8) -> bool
    ensures { Decides result (Mark i b) }
{
    b < 200 && b > 0 && (i != 0 || b > 1) && (i != 15 || b % 2 == 0)
}

// The digits of a mantissa.
fn read_mantissa(source: Source) -> Result<Digits, Stop>
    ensures { DigitsRead mantissa (seen source.entry) result }
{
    // An array and not a list that grows: a list's count would be kept in memory, and be written and read again for each digit.
    let mut items = [0u8; 16];
    for (i, byte) in source.bytes.iter().enumerate() {
        let b = see(source.flipped, *byte);
        if !is_mark(i, b) {
            return Err(Stop { at: i });
        }
        items[i] = b / 2;
        if b % 2 == 0 {
            let list = Inline {
                items,
                count: i + 1,
            };
            return Ok(Digits { list });
        }
    }
    Err(Stop { at: source.len() })
}

// The digits of a decimal of this sign.
fn read_body(sign: Sign, source: Source) -> Result<Digits, Stop>
    ensures { DigitsRead (body_of sign) (seen source.entry) result }
{
    read_mantissa(signed(sign, source))
}

// A decimal other than zero.
fn read_amount(source: Source) -> Result<(Decimal, usize), Stop>
    ensures { (x : ℕ) (xs : List ℕ) → seen source.entry ≡ x ∷ xs → (x ≢ 0x15) → DecimalRead (seen source.entry) result }
{
    let head = read_head(source)?;
    let digits = read_body(head.sign, source.skip(head.len)).map_err(|stop| stop.behind(head.len))?;
    let len = head.len + digits.list.as_slice().len();
    let amount = Amount {
        sign: head.sign,
        exponent: head.exponent,
        digits,
    };
    Ok((Decimal::Amount(amount), len))
}

// A decimal.
pub(crate) fn read_decimal(source: Source) -> Result<(Decimal, usize), Stop>
    ensures { DecimalRead (seen source.entry) result }
{
    let (first, _) = source.split().ok_or(Stop { at: 0 })?;
    match class_of(first) {
        Class::Zero => Ok((Decimal::Zero, 1)),
        _ => read_amount(source),
    }
}
