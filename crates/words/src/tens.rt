ghost use Rattle.std.specs.Prelude.{◌≡◌, ℕ, ◌+◌, ◌*◌, ◌/◌, ◌^◌, ◌≤◌, length, take, pos, ◌+ℤ◌, ◌*ℤ◌, IfOk, IfSome, unsigned_abs};
ghost use Rattle.std.specs.Int.Digits.{number_from_digits};
ghost use Rattle.codes.specs.Means.{number_of};
ghost use Rattle.words.specs.Digits.{written};
ghost use Rattle.words.specs.Tens.{TenWorth};

use crate::cut::cut_at;
use crate::digits::{digit, push_zeros, without_back_zeros, without_front_zeros};
use crate::fault::WordFault;
use crate::signed::{signed_value, split_sign};
use keys::{Decimal, Sign};
use std::alloc::Global;

// The decimal that a word writes in base ten, as `-12.5e-3`.
pub(crate) fn read_tens(heap: Global, word: &[u8]) -> Result<Decimal, WordFault> {
    if word.len() > 64 {
        return Err(WordFault::Form);
    }
    let (sign, body) = split_sign(word).unwrap_or((Sign::Positive, word));
    let (mantissa, behind) = match cut_at(body, b'e') {
        (_, None) => cut_at(body, b'E'),
        cut => cut,
    };
    let exponent = exponent_of(behind).ok_or(WordFault::Form)?;
    let (whole, fraction) = cut_at(mantissa, b'.');
    let fraction = fraction.unwrap_or(&[]);
    let mut digits = Vec::from_slice(heap, whole)?;
    digits.extend_from_slice(fraction)?;
    if digits.is_empty() {
        return Err(WordFault::Form);
    }
    // There are at most 64 digits: `try_from` would need an error that never comes.
    let power = exponent - fraction.len() as i32;
    from_tens(heap, sign, digits.as_slice(), power)
}

// The power of ten behind the mark e: 1 to 5 digits behind an optional sign, and 0 where there is no mark.
fn exponent_of(behind: Option<&[u8]>) -> Option<i32>
    ensures { IfSome result (λ e. unsigned_abs e ≤ 100000) }
{
    let Some(word) = behind else {
        return Some(0);
    };
    let (sign, digits) = split_sign(word).unwrap_or((Sign::Positive, word));
    signed_value(sign, digits, 5)
}

// The decimal whose digits in base ten are these, the last of them at this power of ten.
fn from_tens(heap: Global, sign: Sign, digits: &[u8], power: i32) -> Result<Decimal, WordFault>
    requires few { length digits.now ≤ 64 }
    requires range { unsigned_abs power ≤ 150000 }
    ensures { IfOk result (λ d. TenWorth sign digits.now power (number_of d)) }
{
    let some = without_front_zeros(digits);
    if some.is_empty() {
        return Ok(Decimal::Zero);
    }
    let kept = without_back_zeros(some);
    // At most 64 again.
    let (exponent, front) = halved(power + some.len() as i32);
    let pairs = paired(heap, kept, front)?;
    Ok(Decimal::new(sign, exponent, pairs.as_slice())?)
}

// Half of a number, rounded up, and what was added for that.
fn halved(n: i32) -> (i32, usize)
    requires { unsigned_abs n ≤ 200000 }
    ensures { (pos 2 *ℤ result.0 ≡ n +ℤ pos result.1) × (result.1 ≤ 1) }
{
    let odd = n % 2 != 0;
    ((n + i32::from(odd)) / 2, usize::from(odd))
}

// Digits in base 100 from digits in base ten, with zeros in front, and one behind where their number is then odd.
fn paired(heap: Global, digits: &[u8], front: usize) -> Result<Vec<u8>, WordFault>
    requires { front ≤ 1 }
    ensures { IfOk result (λ v. (z : ℕ) × (number_from_digits 100 v.items ≡ written digits.now * 10 ^ z) × (2 * length v.items ≡ front + length digits.now + z)) }
{
    let mut padded = Vec::new(heap);
    push_zeros(&mut padded, front)?;
    padded.extend_from_slice(digits)?;
    let behind = padded.len() % 2;
    push_zeros(&mut padded, behind)?;
    pairs(heap, padded.as_slice())
}

// Each two digits of base ten as one of base 100.
fn pairs(heap: Global, digits: &[u8]) -> Result<Vec<u8>, WordFault>
    ensures { IfOk result (λ v. (number_from_digits 100 v.items ≡ written (take (2 * (length digits.now / 2)) digits.now)) × (length v.items ≡ length digits.now / 2)) }
{
    let mut all = Vec::new(heap);
    let (pairs, _) = digits.as_chunks::<2>();
    for [high, low] in pairs {
        let high = digit(*high).ok_or(WordFault::Form)?;
        let low = digit(*low).ok_or(WordFault::Form)?;
        all.push(high * 10 + low)?;
    }
    Ok(all)
}
