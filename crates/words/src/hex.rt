ghost use Rattle.std.specs.Prelude.{◌≡◌, ℕ, ◌+◌, ◌*◌, ◌/◌, ◌%◌, ◌<◌, ◌++◌, ◌≢◌, MatchOption, MatchResult, OnOk};
ghost use Rattle.words.specs.Hex.{Added, NoHex, NoPair, Pair, hex, hex_digit};
ghost use Rattle.words.specs.declared.fault.WordFault.TheVariants.{Memory};

use crate::digits::digit;
use crate::fault::WordFault;
use std::alloc::AllocError;

// Adds two upper-case hexadecimal digits for each byte.
pub fn push_hex(out: &mut Vec<u8>, bytes: &[u8]) -> Result<(), AllocError>
    ensures { OnOk result (out.new.items ≡ out.old.items ++ hex bytes.now) }
{
    for b in bytes {
        out.extend_from_slice(&[hex_digit(*b / 16), hex_digit(*b % 16)])?;
    }
    Ok(())
}

// Adds the bytes that a word of upper-case hexadecimal pairs writes.
pub fn read_hex(word: &[u8], out: &mut Vec<u8>) -> Result<(), WordFault>
    ensures { MatchResult result (λ _. Added word.now out.old.items out.new.items) (λ e. e ≢ Memory → NoHex word.now) }
{
    let (pairs, []) = word.as_chunks::<2>() else {
        return Err(WordFault::Form);
    };
    for [high, low] in pairs {
        out.push(hex_pair(*high, *low).ok_or(WordFault::Form)?)?;
    }
    Ok(())
}

// The digit of a number below 16.
fn hex_digit(n: u8) -> u8
    requires { n < 16 }
    ensures { result ≡ hex_digit n }
{
    if n < 10 { b'0' + n } else { b'A' - 10 + n }
}

// The number below 16 that a digit writes.
fn hex_value(b: u8) -> Option<u8>
    ensures { MatchOption result ((n : ℕ) → n < 16 → hex_digit n ≢ b) (λ n. (n < 16) × (hex_digit n ≡ b)) }
{
    match b {
        b'A'..=b'F' => Some(b - b'A' + 10),
        _ => digit(b),
    }
}

// The byte that a pair of digits writes.
fn hex_pair(high: u8, low: u8) -> Option<u8>
    ensures { MatchOption result (NoPair high low) (λ b. Pair b high low) }
{
    Some(hex_value(high)? * 16 + hex_value(low)?)
}
