ghost use Rattle.std.specs.Prelude.{◌≡◌, ◌+◌, true, [], length};
ghost use Rattle.inline.specs.Listed.{listed};
ghost use Rattle.codes.specs.Decimals.{Number, Shaped, Smaller};
ghost use Rattle.codes.specs.Codes.{lead_of, body_of, mantissa, number_code};
ghost use Rattle.codes.specs.Laws.{Put};
ghost use Rattle.codes.specs.Means.{number_of};
ghost use Rattle.codes.specs.Numbers.{number_laws};
ghost use Rattle.codes.specs.declared.sign.Sign.TheVariants.{Positive};

use crate::code::{ColumnCode, complement, put_front};
use crate::decimal::{Amount, Decimal, Digits, Exponent};
use crate::sign::Sign;
use crate::source::Source;
use crate::unread::Unread;
use inline::Inline;

pub mod reading;

use reading::read_decimal;

// The one or two bytes before the digits' bytes. The casts lose nothing, which is proved; a `try_from` would need an answer for what cannot be.
fn lead(sign: Sign, exponent: Exponent) -> Inline<u8, 2>
    ensures { listed result ≡ lead_of sign exponent.power }
{
    let e = exponent.power;
    match sign {
        Sign::Positive if e < 0 => Inline::from_front(&[0x16, (255 + e) as u8]),
        Sign::Positive if e <= 10 => Inline::from_front(&[(0x17 + e) as u8]),
        Sign::Positive => Inline::from_front(&[0x22, e as u8]),
        Sign::Negative if e < 0 => Inline::from_front(&[0x14, (-e) as u8]),
        Sign::Negative if e <= 10 => Inline::from_front(&[(0x13 - e) as u8]),
        Sign::Negative => Inline::from_front(&[0x08, (255 - e) as u8]),
    }
}

// Writes a byte for each digit.
fn put_mantissa(digits: &Digits, out: &mut [u8])
    requires { length out.old ≡ length (listed digits.now.list) }
    ensures { out.new ≡ mantissa (listed digits.now.list) }
{
    let list = digits.list.as_slice();
    let last = list.len() - 1;
    // An index into the output: `zip` with `out.iter_mut()` was tried, and nothing is known of the output after it.
    for (i, digit) in list.iter().enumerate() {
        out[i] = 2 * *digit + u8::from(i < last);
    }
}

// Writes a byte for each digit, complemented for a negative decimal.
fn put_body(sign: Sign, digits: &Digits, out: &mut [u8])
    requires { length out.old ≡ length (listed digits.now.list) }
    ensures { out.new ≡ body_of sign (listed digits.now.list) }
{
    put_mantissa(digits, out);
    match sign {
        Sign::Positive => {}
        Sign::Negative => complement(out),
    }
}

// Writes a decimal other than zero.
fn put_amount(amount: &Amount, out: &mut [u8]) -> Option<usize>
    ensures { Put (number_code (number_of (Decimal.Amount amount.now))) out.old out.new result }
{
    let lead = lead(amount.sign, amount.exponent);
    let lead = lead.as_slice();
    let start = lead.len();
    let end = start + amount.digits.list.as_slice().len();
    if out.len() < end {
        return None;
    }
    out[0..start].copy_from_slice(lead);
    put_body(amount.sign, &amount.digits, &mut out[start..end]);
    Some(end)
}

// The length of the code of a decimal other than zero.
fn amount_size(amount: &Amount) -> usize
    ensures { result ≡ length (lead_of Positive amount.now.exponent.power) + length (listed amount.now.digits.list) }
{
    let count = amount.digits.list.as_slice().len();
    if amount.exponent.power < 0 || amount.exponent.power > 10 {
        count + 2
    } else {
        count + 1
    }
}

impl ColumnCode for Decimal {
    ghost Meaning = { Number };

    ghost means = { λ d _. number_of d };

    ghost Coded = { Shaped };

    ghost clean = { λ _. true };

    ghost bytes = { number_code };

    ghost less = { Smaller };

    ghost spelled = { λ _. [] };

    ghost lawful = { number_laws };

    fn size(&self, _texts: &[u8]) -> Option<usize> {
        match *self {
            Decimal::Zero => Some(1),
            Decimal::Amount(amount) => Some(amount_size(&amount)),
        }
    }

    fn put(&self, _texts: &[u8], out: &mut [u8]) -> Option<usize> {
        match *self {
            Decimal::Zero => put_front(&[0x15], out),
            Decimal::Amount(amount) => put_amount(&amount, out),
        }
    }

    fn read(source: Source, _texts: &mut [u8]) -> Result<(Decimal, usize), Unread> {
        Ok(read_decimal(source)?)
    }
}
