ghost use Rattle.std.specs.Prelude.{◌≡◌, ℕ, ◌+◌, ◌*◌, ◌/◌, ◌%◌, ◌<◌, ◌≤◌, [], length, slice_index, slice_set, MatchResult};
ghost use Rattle.layout.specs.Pages.{head, page_bytes};
ghost use Rattle.layout.specs.Leaf.{LeafHead};

use crate::fault::PageFault;

// The number of cells that a leaf's head states.
pub(crate) fn leaf_number(page: &[u8]) -> Result<usize, PageFault>
    ensures { MatchResult result (λ number. LeafHead page.now number) (λ fault. (fault ≡ PageFault.Damaged 0) × ((number : ℕ) → LeafHead page.now number → ⊥)) }
{
    if page.len() < 4 || page[0] / 64 != 1 {
        return Err(PageFault::Damaged(0));
    }
    Ok(usize::from(page[0] % 64) * 256 + usize::from(page[1]))
}

// Puts another number of cells into a head.
pub(crate) fn set_number(page: &mut [u8], number: usize)
    requires long { 4 ≤ length page.old }
    requires low { number < 16384 }
    ensures { page.new ≡ slice_set (slice_set page.old 0 (slice_index page.old 0 / 64 * 64 + number / 256)) 1 (number % 256) }
{
    page[0] = page[0] / 64 * 64 + (number / 256) as u8;
    page[1] = (number % 256) as u8;
}

// Makes the page one of this kind with these cells.
pub(crate) fn write_page(page: &mut [u8], kind: u8, number: usize, link: u16, cells: &[u8])
    requires room { 4 + length cells.now ≤ length page.old }
    requires known { kind < 4 }
    requires low { number < 16384 }
    ensures { page.new ≡ page_bytes (length page.old) (head kind number link) cells.now }
{
    let (first, rest) = page.split_at_mut(4);
    let link = link.to_be_bytes();
    first[0] = kind * 64 + (number / 256) as u8;
    first[1] = (number % 256) as u8;
    first[2] = link[0];
    first[3] = link[1];
    let (full, free) = rest.split_at_mut(cells.len());
    full.copy_from_slice(cells);
    free.fill(0);
}
