ghost use Rattle.std.specs.Prelude.{◌≡◌};
ghost use Rattle.words.specs.Digits.{number_word};
ghost use Rattle.words.specs.Numbers.{number_under};

use crate::digits::digits_value;
use crate::fault::WordFault;

// The number that a word of 1 to 9 digits writes, at most `limit`.
pub fn read_number(word: &[u8], limit: usize) -> Result<usize, WordFault>
    ensures { result ≡ number_under limit (number_word 9 word.now) }
{
    digits_value(word, 9)
        .filter(|n| *n <= limit)
        .ok_or(WordFault::Form)
}
