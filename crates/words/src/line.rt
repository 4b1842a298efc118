ghost use Rattle.std.specs.Prelude.{◌≡◌, ◌<◌, ◌∷◌, ◌≢◌, MatchOption, MatchResult, slice_index, vec_len};
ghost use Rattle.words.specs.Lines.{Falls, FirstWord, NoFirstWord, NoWords, lent};
ghost use Rattle.words.specs.declared.fault.WordFault.TheVariants.{Memory};

use crate::cut::cut_at;
use crate::fault::WordFault;
use std::alloc::Global;

// The words of a line. One space parts two words. A word that begins with a mark " ends at the next mark and may hold spaces; any other word holds neither a space nor a mark.
pub fn split<'a>(heap: Global, line: &'a [u8]) -> Result<Vec<&'a [u8]>, WordFault>
    ensures { MatchResult result (λ v. Falls line.now (lent v.items) × (0 < vec_len v)) (λ e. e ≢ Memory → NoWords line.now) }
{
    let mut words = Vec::new(heap);
    let mut rest = Some(line);
    while let Some(bytes) = rest {
        let (word, behind) = first_word(bytes).ok_or(WordFault::Form)?;
        words.push(word)?;
        rest = behind;
    }
    Ok(words)
}

// The word at the front, and what stands behind the space that ends it, if one does.
fn first_word(bytes: &[u8]) -> Option<(&[u8], Option<&[u8]>)>
    ensures { MatchOption result (NoFirstWord bytes.now) (λ p. FirstWord bytes.now p.0.now p.1) }
{
    match bytes {
        [b'"', inner @ ..] => quoted_word(bytes, inner),
        _ => plain_word(bytes),
    }
}

// The same, where the word begins with a mark, and these bytes stand behind that.
fn quoted_word<'a>(bytes: &'a [u8], inner: &'a [u8]) -> Option<(&'a [u8], Option<&'a [u8]>)>
    requires { bytes.now ≡ 34 ∷ inner.now }
    ensures { MatchOption result (NoFirstWord bytes.now) (λ p. FirstWord bytes.now p.0.now p.1) }
{
    let (text, close) = cut_at(inner, b'"');
    let behind = match close? {
        [] => None,
        [b' ', behind @ ..] => Some(behind),
        _ => return None,
    };
    Some((&bytes[..text.len() + 2], behind))
}

// The same, where the word has no mark.
fn plain_word(bytes: &[u8]) -> Option<(&[u8], Option<&[u8]>)>
    requires { slice_index bytes.now 0 ≢ 34 }
    ensures { MatchOption result (NoFirstWord bytes.now) (λ p. FirstWord bytes.now p.0.now p.1) }
{
    let (word, behind) = cut_at(bytes, b' ');
    if word.is_empty() || word.contains(&b'"') {
        return None;
    }
    Some((word, behind))
}
