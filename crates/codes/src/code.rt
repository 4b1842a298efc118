ghost use Rattle.std.specs.Prelude.{◌≡◌, ℕ, Bool, List};
ghost use Rattle.codes.specs.Strings.{flipped};
ghost use Rattle.codes.specs.Laws.{Laws, Measured, Put};
ghost use Rattle.codes.specs.Reading.{Read};
ghost use Rattle.codes.specs.Sources.{seen};

use crate::source::Source;
use crate::unread::Unread;

pub mod any;
pub mod descending;
pub mod null;
pub mod number;
pub mod text;

// A value that has a column code: bytes that compare as the values do. A value is plain numbers; a text's bytes lie in bytes that are lent beside it.
pub trait ColumnCode: Sized {
    // What a value stands for, with the bytes lent beside it.
    ghost Meaning: { Type 0 };

    ghost means: { Self → List ℕ → Meaning };

    // The meanings that the laws are about, and whether a key can hold one.
    ghost Coded: { Meaning → Type 0 };

    ghost clean: { Meaning → Bool };

    // The bytes of each, and how two compare.
    ghost bytes: { Meaning → List ℕ };

    ghost less: { Meaning → Meaning → Type 0 };

    // The bytes of the text in it, if it is one.
    ghost spelled: { Meaning → List ℕ };

    // The length of the code, or None for a value that no key can hold.
    fn size(&self, texts: &[u8]) -> Option<usize>
        ensures { Measured (clean (means self.now texts.now)) (Coded (means self.now texts.now)) (bytes (means self.now texts.now)) result };

    // Writes the code to the front of the output and answers its length, or None where there is no room.
    fn put(&self, texts: &[u8], out: &mut [u8]) -> Option<usize>
        ensures { Put (bytes (means self.now texts.now)) out.old out.new result };

    // Reads a value from the front of some bytes: the value, with a text's bytes at the front of the lent ones, and the number of bytes used.
    fn read(source: Source, texts: &mut [u8]) -> Result<(Self, usize), Unread>
        ensures { Read Coded bytes means spelled (seen source.entry) texts.old texts.new result };

    ghost lawful: { Laws Coded bytes less };
}

// Writes the bytes to the front of the output and answers their number, or None where there is no room.
pub(crate) fn put_front(bytes: &[u8], out: &mut [u8]) -> Option<usize>
    ensures { Put bytes.now out.old out.new result }
{
    let n = bytes.len();
    if out.len() < n {
        return None;
    }
    out[0..n].copy_from_slice(bytes);
    Some(n)
}

// Flips every bit of every byte.
pub(crate) fn complement(bytes: &mut [u8])
    ensures { bytes.new ≡ flipped bytes.old }
{
    for b in bytes.iter_mut() {
        *b = !*b;
    }
}
