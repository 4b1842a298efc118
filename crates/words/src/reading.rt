ghost use Rattle.std.specs.Prelude.{◌≡◌, ◌∷◌, ◌≢◌, MatchResult};
ghost use Rattle.codes.specs.Means.{datum_of};
ghost use Rattle.words.specs.Values.{NoText, ReadAs};
ghost use Rattle.words.specs.declared.fault.WordFault.TheVariants.{Memory};

use crate::cut::cut_at;
use crate::fault::WordFault;
use crate::hex::read_hex;
use crate::parts::read_parts;
use crate::tens::read_tens;
use keys::{Decimal, Text, Value};
use std::alloc::Global;

// The value that a word writes. The bytes of a text are added to `texts`.
pub fn read_value(heap: Global, word: &[u8], texts: &mut Vec<u8>) -> Result<Value, WordFault>
    ensures { MatchResult result (λ v. ReadAs word.now (datum_of v texts.new.items)) (λ e. e ≢ Memory → NoText word.now) }
{
    match word {
        b"null" => Ok(Value::Null),
        [b'"', behind @ ..] => read_quoted(behind, texts),
        [b'~', pairs @ ..] => read_pairs(pairs, texts),
        _ => Ok(Value::Decimal(read_decimal(heap, word)?)),
    }
}

// A decimal, by its parts where the word has a colon, else in base ten.
fn read_decimal(heap: Global, word: &[u8]) -> Result<Decimal, WordFault> {
    match cut_at(word, b':') {
        (front, Some(list)) => read_parts(heap, front, list),
        (_, None) => read_tens(heap, word),
    }
}

// A text, from what stands behind a mark: a second one ends the word.
fn read_quoted(behind: &[u8], texts: &mut Vec<u8>) -> Result<Value, WordFault>
    ensures { MatchResult result (λ v. ReadAs (34 ∷ behind.now) (datum_of v texts.new.items)) (λ e. e ≢ Memory → NoText (34 ∷ behind.now)) }
{
    let (text, close) = cut_at(behind, b'"');
    if !close.ok_or(WordFault::Form)?.is_empty() {
        return Err(WordFault::Form);
    }
    let start = texts.len();
    texts.extend_from_slice(text)?;
    Ok(Value::Text(Text {
        start,
        len: text.len(),
    }))
}

// A text, from the hexadecimal pairs behind a tilde.
fn read_pairs(pairs: &[u8], texts: &mut Vec<u8>) -> Result<Value, WordFault>
    ensures { MatchResult result (λ v. ReadAs (126 ∷ pairs.now) (datum_of v texts.new.items)) (λ e. e ≢ Memory → NoText (126 ∷ pairs.now)) }
{
    let start = texts.len();
    read_hex(pairs, texts)?;
    Ok(Value::Text(Text {
        start,
        len: pairs.len() / 2,
    }))
}
