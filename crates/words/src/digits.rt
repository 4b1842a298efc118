ghost use Rattle.std.specs.Prelude.{◌≡◌, ℕ, ◌^◌, ◌-◌, ◌<◌, ◌≤◌, true, false, ◌++◌, ◌≢◌, length, replicate, slice_index, IfSome, MatchOption, OnOk};
ghost use Rattle.std.specs.Char.{is_ascii_digit};
ghost use Rattle.words.specs.Digits.{digit_of, number_word};

use std::alloc::AllocError;
use std::iter::repeat_n;

// The number that a digit 0 to 9 writes.
pub(crate) fn digit(b: u8) -> Option<u8>
    ensures { MatchOption result (is_ascii_digit b ≡ false) (λ d. (is_ascii_digit b ≡ true) × (d ≡ digit_of b) × (d < 10)) }
{
    match b {
        b'0'..=b'9' => Some(b - b'0'),
        _ => None,
    }
}

// The number that 1 to `most` digits write.
pub(crate) fn digits_value(word: &[u8], most: usize) -> Option<usize>
    requires { most ≤ 9 }
    ensures value { result ≡ number_word most word.now }
    ensures bound { IfSome result (λ n. n < 10 ^ most) }
{
    if word.is_empty() || word.len() > most {
        return None;
    }
    let mut n = 0;
    for b in word {
        n = n * 10 + usize::from(digit(*b)?);
    }
    Some(n)
}

// What is left of some digits without the zeros in front. One function for both ends would take a closure for each pattern, and be no plainer.
pub(crate) fn without_front_zeros(mut digits: &[u8]) -> &[u8]
    ensures zeros { (z : ℕ) × (digits.now ≡ replicate z 48 ++ result.now) }
    ensures bare { slice_index result.now 0 ≢ 48 }
    ensures bound { length result.now ≤ length digits.now }
{
    while let [b'0', rest @ ..] = digits {
        digits = rest;
    }
    digits
}

// What is left of some digits without the zeros behind.
pub(crate) fn without_back_zeros(mut digits: &[u8]) -> &[u8]
    ensures zeros { (z : ℕ) × (digits.now ≡ result.now ++ replicate z 48) }
    ensures bare { slice_index result.now (length result.now - 1) ≢ 48 }
    ensures bound { length result.now ≤ length digits.now }
{
    while let [rest @ .., b'0'] = digits {
        digits = rest;
    }
    digits
}

// Adds a number of zeros.
pub(crate) fn push_zeros(out: &mut Vec<u8>, count: usize) -> Result<(), AllocError>
    ensures { OnOk result (out.new.items ≡ out.old.items ++ replicate count 48) }
{
    out.extend(repeat_n(b'0', count))
}
