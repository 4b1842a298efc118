ghost use Rattle.std.specs.Prelude.{◌≡◌, ℕ, true, List};
ghost use Rattle.codes.specs.Strings.{Less};
ghost use Rattle.codes.specs.Values.{TextBytes, no_zero};
ghost use Rattle.codes.specs.Codes.{text_code};
ghost use Rattle.codes.specs.Laws.{Put};
ghost use Rattle.codes.specs.Means.{text_of};
ghost use Rattle.codes.specs.Texts.{text_laws};

use crate::code::{ColumnCode, put_front};
use crate::source::Source;
use crate::stop::Stop;
use crate::unread::Unread;
use crate::value::Text;

// Whether no byte is 00.
fn has_no_zero(bytes: &[u8]) -> bool
    ensures test { result ≡ no_zero bytes.now }
    ensures each { result ≡ true → TextBytes bytes.now }
{
    bytes.iter().all(|b| *b != 0)
}

// Writes a text's bytes between its first byte and its last.
fn put_text(bytes: &[u8], out: &mut [u8]) -> Option<usize>
    ensures { Put (text_code bytes.now) out.old out.new result }
{
    let n = bytes.len();
    if out.len() < 2 || out.len() - 2 < n {
        return None;
    }
    out[0] = 0x24;
    out[1..n + 1].copy_from_slice(bytes);
    out[n + 1] = 0x00;
    Some(n + 2)
}

impl Text {
    // Its bytes, in those that are lent beside it: what there is of them, if they pass the end.
    pub fn bytes(self, texts: &[u8]) -> &[u8]
        ensures { result.now ≡ text_of self texts.now }
    {
        let start = self.start.min(texts.len());
        let len = self.len.min(texts.len() - start);
        &texts[start..start + len]
    }

    // Writes the text's bytes to the front of the output and answers their number, or None where there is no room.
    pub fn put_bytes(self, texts: &[u8], out: &mut [u8]) -> Option<usize>
        ensures { Put (text_of self texts.now) out.old out.new result }
    {
        put_front(self.bytes(texts), out)
    }
}

impl ColumnCode for Text {
    ghost Meaning = { List ℕ };

    ghost means = { text_of };

    ghost Coded = { TextBytes };

    ghost clean = { no_zero };

    ghost bytes = { text_code };

    ghost less = { Less };

    ghost spelled = { λ t. t };

    ghost lawful = { text_laws };

    fn size(&self, texts: &[u8]) -> Option<usize> {
        let bytes = self.bytes(texts);
        if !has_no_zero(bytes) {
            return None;
        }
        Some(bytes.len().saturating_add(2))
    }

    fn put(&self, texts: &[u8], out: &mut [u8]) -> Option<usize> {
        put_text(self.bytes(texts), out)
    }

    fn read(source: Source, texts: &mut [u8]) -> Result<(Text, usize), Unread> {
        let Some((0x24, rest)) = source.split() else {
            return Err(Unread::NoCode(Stop { at: 0 }));
        };
        let len = rest.zero().ok_or(Stop { at: rest.len() + 1 })?;
        if len > texts.len() {
            return Err(Unread::NoRoom);
        }
        rest.copy(len, texts);
        Ok((Text { start: 0, len }, len + 2))
    }
}
