ghost use Rattle.std.specs.Prelude.{◌≡◌, ◌+◌, ◌-◌, ◌≤◌, ◌++◌, length, take, drop, replicate};
ghost use Rattle.layout.specs.Pages.{FirstNonzero};
ghost use Rattle.layout.specs.Leaf.{cell};

// The place of the first byte that is not 00.
pub(crate) fn nonzero(bytes: &[u8]) -> Option<usize>
    ensures { FirstNonzero bytes.now result }
{
    bytes.iter().position(|byte| *byte != 0)
}

// Moves the bytes up to `end` on, and writes a key's cell into the gap.
pub(crate) fn open(page: &mut [u8], at: usize, end: usize, key: &[u8])
    requires order { at ≤ end }
    requires room { end + (1 + length key.now) ≤ length page.old }
    requires short { length key.now ≤ 120 }
    ensures { page.new ≡ take at page.old ++ (cell key.now ++ (take (end - at) (drop at page.old) ++ drop (end + (1 + length key.now)) page.old)) }
{
    page.copy_within(at..end, at + (1 + key.len()));
    put_cell(page, at, key);
}

// Writes a key's cell over what is there.
fn put_cell(page: &mut [u8], at: usize, key: &[u8])
    requires room { at + (1 + length key.now) ≤ length page.old }
    requires short { length key.now ≤ 120 }
    ensures { page.new ≡ take at page.old ++ (cell key.now ++ drop (at + (1 + length key.now)) page.old) }
{
    page[at] = key.len() as u8;
    page[at + 1..at + 1 + key.len()].copy_from_slice(key);
}

// Moves the bytes from `from` up to `end` back to `at`, and clears what they leave.
pub(crate) fn close(page: &mut [u8], at: usize, from: usize, end: usize)
    requires gap { at ≤ from }
    requires order { from ≤ end }
    requires within { end ≤ length page.old }
    ensures { page.new ≡ take at page.old ++ (take (end - from) (drop from page.old) ++ (replicate (from - at) 0 ++ drop end page.old)) }
{
    page.copy_within(from..end, at);
    page[end - (from - at)..end].fill(0);
}
