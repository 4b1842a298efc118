ghost use Rattle.std.specs.Prelude.{◌≡◌, ◌*◌, ◌≤◌, ◌++◌, length, IfOk, vec_len, OnOk, unsigned_abs};
ghost use Rattle.codes.specs.Means.{datum_of, number_of, text_of};
ghost use Rattle.codes.specs.Values.{decimal};
ghost use Rattle.words.specs.Values.{Shown, all_typable, quoted, text_shown, tilded, typable};

use crate::digits::{push_zeros, without_back_zeros};
use crate::hex::push_hex;
use keys::{Amount, Decimal, Sign, Text, Value};
use std::alloc::{AllocError, Global};

// Adds a value as a person would type it. The allocator comes as a parameter, here and in what this calls, as in the library: the one of `out` would do, but a public signature stays.
pub fn push_value(
    heap: Global,
    out: &mut Vec<u8>,
    value: Value,
    texts: &[u8],
) -> Result<(), AllocError>
    ensures { OnOk result (Shown (datum_of value texts.now) out.old.items out.new.items) }
{
    match value {
        Value::Null => out.extend_from_slice(b"null"),
        Value::Decimal(d) => push_decimal(heap, out, d),
        Value::Text(text) => push_text(out, text.bytes(texts)),
    }
}

// Adds a decimal in base ten without outer zeros.
fn push_decimal(heap: Global, out: &mut Vec<u8>, d: Decimal) -> Result<(), AllocError>
    ensures { OnOk result (Shown (decimal (number_of d)) out.old.items out.new.items) }
{
    match d {
        Decimal::Zero => out.extend_from_slice(b"0"),
        Decimal::Amount(amount) => push_amount(heap, out, &amount),
    }
}

// Adds a text: in marks where each of its bytes can be typed between them, else as hexadecimal pairs behind a tilde.
fn push_text(out: &mut Vec<u8>, text: &[u8]) -> Result<(), AllocError>
    ensures { OnOk result (out.new.items ≡ out.old.items ++ text_shown text.now) }
{
    if can_be_quoted(text) {
        push_quoted(out, text)
    } else {
        push_tilded(out, text)
    }
}

// Adds a text in marks.
fn push_quoted(out: &mut Vec<u8>, text: &[u8]) -> Result<(), AllocError>
    ensures { OnOk result (out.new.items ≡ out.old.items ++ quoted text.now) }
{
    out.push(b'"')?;
    out.extend_from_slice(text)?;
    out.push(b'"')?;
    Ok(())
}

// Adds a text as hexadecimal pairs behind a tilde.
fn push_tilded(out: &mut Vec<u8>, text: &[u8]) -> Result<(), AllocError>
    ensures { OnOk result (out.new.items ≡ out.old.items ++ tilded text.now) }
{
    out.push(b'~')?;
    push_hex(out, text)
}

// Whether a byte is printable ASCII and no mark.
fn is_typable(b: u8) -> bool
    ensures { result ≡ typable b }
{
    matches!(b, b' '..=b'~') && b != b'"'
}

// Whether each byte is printable ASCII and no mark.
fn can_be_quoted(text: &[u8]) -> bool
    ensures { result ≡ all_typable text.now }
{
    text.iter().all(|b| is_typable(*b))
}

// Adds a decimal other than zero.
fn push_amount(heap: Global, out: &mut Vec<u8>, amount: &Amount) -> Result<(), AllocError> {
    if amount.sign() == Sign::Negative {
        out.push(b'-')?;
    }
    let all = unpaired(heap, amount.digits())?;
    let end = 2 * amount.exponent();
    match all.as_slice() {
        [b'0', digits @ ..] => push_tens(heap, out, without_back_zeros(digits), end - 1),
        digits => push_tens(heap, out, without_back_zeros(digits), end),
    }
}

// Each digit of base 100 as two of base ten.
fn unpaired(heap: Global, digits: &[u8]) -> Result<Vec<u8>, AllocError>
    ensures { IfOk result (λ v. vec_len v ≡ 2 * length digits.now) }
{
    let mut all = Vec::new(heap);
    for d in digits {
        all.extend_from_slice(&[b'0' + *d / 10, b'0' + *d % 10])?;
    }
    Ok(all)
}

// Adds digits whose first stands right behind the point times ten to the power `end`.
fn push_tens(heap: Global, out: &mut Vec<u8>, digits: &[u8], end: i32) -> Result<(), AllocError>
    requires few { length digits.now ≤ 32 }
    requires range { unsigned_abs end ≤ 1000 }
{
    // Each cast keeps its number, 0 to 32: `try_from` would need an error that never comes.
    match end {
        -5..=0 => {
            out.extend_from_slice(b"0.")?;
            push_zeros(out, end.unsigned_abs() as usize)?;
            out.extend_from_slice(digits)
        }
        1..=20 => push_pointed(out, digits, end as usize),
        _ => {
            let shown = format!(in heap; "e{}", end - digits.len() as i32)?;
            out.extend_from_slice(digits)?;
            out.extend_from_slice(shown.as_bytes())
        }
    }
}

// Adds digits with a point behind so many of them, or with zeros behind them where they are no more.
fn push_pointed(out: &mut Vec<u8>, digits: &[u8], end: usize) -> Result<(), AllocError> {
    if digits.len() <= end {
        out.extend_from_slice(digits)?;
        return push_zeros(out, end - digits.len());
    }
    let (whole, fraction) = digits.split_at(end);
    out.extend_from_slice(whole)?;
    out.push(b'.')?;
    out.extend_from_slice(fraction)
}
