ghost use Rattle.std.specs.Prelude.{◌≡◌, ◌<◌, ◌≤◌, ◌++◌, length, take, drop};
ghost use Rattle.codes.specs.Strings.{Bytes, flipped};
ghost use Rattle.codes.specs.Sources.{FirstZero, Split, see_as, seen, seen_as};

use crate::code::complement;

// Bytes to read from, complemented in a column that descends. A flag, and no enum of two cases: each call treats both alike, but for how a byte is seen.
#[derive(Clone, Copy)]
pub struct Source<'a> {
    pub(crate) bytes: &'a [u8],
    pub(crate) flipped: bool,
}

// A byte as it is seen.
pub(crate) fn see(flipped: bool, b: u8) -> u8
    ensures { result ≡ see_as flipped b }
{
    if flipped { !b } else { b }
}

// The bytes themselves, of which each is below 256.
fn octets(bytes: &[u8]) -> &[u8]
    ensures same { result.now ≡ bytes.now }
    ensures each { Bytes bytes.now }
{
    bytes.split_at(0).1
}

// Copies bytes as they are seen.
fn copy_seen(flipped: bool, bytes: &[u8], out: &mut [u8])
    requires { length out.old ≡ length bytes.now }
    ensures { out.new ≡ seen_as flipped bytes.now }
{
    out.copy_from_slice(bytes);
    if flipped {
        complement(out);
    }
}

impl<'a> Source<'a> {
    // The bytes as they stand.
    pub fn new(bytes: &'a [u8]) -> Source<'a>
        ensures { seen result ≡ bytes.now }
    {
        Source {
            bytes,
            flipped: false,
        }
    }

    // How many there are.
    pub(crate) fn len(self) -> usize
        ensures { result ≡ length (seen self.entry) }
    {
        self.bytes.len()
    }

    // The same bytes, complemented.
    pub(crate) fn turned(self) -> Source<'a>
        ensures turn { seen result ≡ flipped (seen self.entry) }
        ensures back { seen self.entry ≡ flipped (seen result) }
    {
        Source {
            bytes: octets(self.bytes),
            flipped: !self.flipped,
        }
    }

    // The first byte and the rest.
    pub(crate) fn split(self) -> Option<(u8, Source<'a>)>
        ensures { Split (seen self.entry) result }
    {
        match self.bytes {
            [] => None,
            [first, rest @ ..] => {
                let rest = Source {
                    bytes: rest,
                    flipped: self.flipped,
                };
                Some((see(self.flipped, *first), rest))
            }
        }
    }

    // What stands behind the first `n` bytes.
    pub(crate) fn skip(self, n: usize) -> Source<'a>
        ensures { seen result ≡ drop n (seen self.entry) }
    {
        let start = n.min(self.bytes.len());
        Source {
            bytes: &self.bytes[start..],
            flipped: self.flipped,
        }
    }

    // The place of the first byte 00.
    pub(crate) fn zero(self) -> Option<usize>
        ensures { FirstZero (seen self.entry) result }
    {
        let flipped = self.flipped;
        octets(self.bytes)
            .iter()
            .position(|b| see(flipped, *b) == 0)
    }

    // Copies the first `n` bytes to the front of the output.
    pub(crate) fn copy(self, n: usize, out: &mut [u8])
        requires { (n ≤ length (seen self)) × (n ≤ length out.old) }
        ensures { out.new ≡ take n (seen self.entry) ++ drop n out.old }
    {
        copy_seen(self.flipped, &self.bytes[0..n], &mut out[0..n]);
    }
}
