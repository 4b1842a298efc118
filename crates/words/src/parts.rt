use crate::digits::digits_value;
use crate::fault::WordFault;
use crate::signed::{signed_value, split_sign};
use keys::{Decimal, Sign};
use std::alloc::Global;

// The decimal that a word writes by its sign and exponent before a colon and its digits in base 100 behind it, as `+1:12,50`.
pub(crate) fn read_parts(heap: Global, front: &[u8], list: &[u8]) -> Result<Decimal, WordFault> {
    let (sign, word) = split_sign(front).ok_or(WordFault::Form)?;
    let exponent = exponent_of(word).ok_or(WordFault::Form)?;
    let digits = read_list(heap, list)?;
    Ok(Decimal::new(sign, exponent, digits.as_slice())?)
}

// An exponent: 1 to 3 digits behind an optional minus.
fn exponent_of(word: &[u8]) -> Option<i32> {
    match word {
        [b'-', digits @ ..] => signed_value(Sign::Negative, digits, 3),
        digits => signed_value(Sign::Positive, digits, 3),
    }
}

// Numbers of 1 to 3 digits with a comma between two of them, as digits in base 100. A number that is no byte is none of base 100 either, and 255 stands for it.
fn read_list(heap: Global, list: &[u8]) -> Result<Vec<u8>, WordFault> {
    let mut digits = Vec::new(heap);
    if list.is_empty() {
        return Ok(digits);
    }
    for word in list.split(|b| *b == b',') {
        let n = digits_value(word, 3).ok_or(WordFault::Form)?;
        digits.push(u8::try_from(n).unwrap_or(u8::MAX))?;
    }
    Ok(digits)
}
