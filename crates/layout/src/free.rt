ghost use Rattle.std.specs.Prelude.{◌≡◌, ℕ, ◌<◌, ◌≤◌, length, MatchResult};
ghost use Rattle.layout.specs.Free.{free_bytes, NoFree};

use crate::bytes::nonzero;
use crate::fault::PageFault;
use crate::head::write_page;

// Makes the page a free one, with the next free page or 0 as its link. Bytes that have no room for a head stay as they are.
pub fn write_free(page: &mut [u8], next: u16)
    ensures free { 4 ≤ length page.old → page.new ≡ free_bytes (length page.old) next }
    ensures short { length page.old < 4 → page.new ≡ page.old }
{
    if page.len() >= 4 {
        write_page(page, 3, 0, next, &[]);
    }
}

// The link of a free page.
pub fn read_free(page: &[u8]) -> Result<u16, PageFault>
    ensures cases { MatchResult result (λ next. page.now ≡ free_bytes (length page.now) next) (λ fault. NoFree page.now fault) }
    ensures accepts { (next : ℕ) → page.now ≡ free_bytes (length page.now) next → result ≡ Ok next }
{
    free_link(page)
}

// The same, with no more said of it than what was seen.
fn free_link(page: &[u8]) -> Result<u16, PageFault>
    ensures { MatchResult result (λ next. page.now ≡ free_bytes (length page.now) next) (λ fault. NoFree page.now fault) }
{
    let [192, 0, high, low, rest @ ..] = page else {
        return Err(PageFault::Damaged(0));
    };
    match nonzero(rest) {
        Some(at) => Err(PageFault::Damaged(4 + at)),
        None => Ok(u16::from_be_bytes([*high, *low])),
    }
}
