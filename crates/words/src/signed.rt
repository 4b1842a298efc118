ghost use Rattle.std.specs.Prelude.{◌≡◌, ◌∷◌, ◌^◌, ◌<◌, ◌≤◌, ◌≢◌, IfSome, MatchOption, slice_index, unsigned_abs};
ghost use Rattle.std.specs.Option.{option_map};
ghost use Rattle.codes.specs.Decimals.{signed};
ghost use Rattle.words.specs.Digits.{number_word};
ghost use Rattle.words.specs.Tens.{sign_byte};

use crate::digits::digits_value;
use keys::Sign;

// The sign that a word begins with, and what stands behind it.
pub(crate) fn split_sign(word: &[u8]) -> Option<(Sign, &[u8])>
    ensures { MatchOption result ((slice_index word.now 0 ≢ 43) × (slice_index word.now 0 ≢ 45)) (λ p. word.now ≡ sign_byte p.0 ∷ p.1.now) }
{
    match word {
        [b'+', behind @ ..] => Some((Sign::Positive, behind)),
        [b'-', behind @ ..] => Some((Sign::Negative, behind)),
        _ => None,
    }
}

// The number that 1 to `most` digits behind a sign write.
pub(crate) fn signed_value(sign: Sign, digits: &[u8], most: usize) -> Option<i32>
    requires { most ≤ 9 }
    ensures value { result ≡ option_map (signed sign) (number_word most digits.now) }
    ensures bound { IfSome result (λ n. unsigned_abs n < 10 ^ most) }
{
    let n = i32::try_from(digits_value(digits, most)?).ok()?;
    match sign {
        Sign::Positive => Some(n),
        Sign::Negative => Some(-n),
    }
}
