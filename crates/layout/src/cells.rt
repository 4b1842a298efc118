ghost use Rattle.std.specs.Prelude.{◌≡◌, ℕ, ◌+◌, ◌≤◌, ◌⊎◌, ◌++◌, List, length, drop, All, IfErr, IfOk, MatchResult};
ghost use Rattle.std.specs.List.{flat_map};
ghost use Rattle.std.specs.Result.{IsOkAnd};
ghost use Rattle.layout.specs.Faults.{Stops};
ghost use Rattle.layout.specs.Leaf.{cell, CellAt, Leaf, LeafHead, Sized};
ghost use Rattle.layout.specs.Places.{Behind};

use crate::fault::PageFault;
use crate::head::leaf_number;
use crate::place::Place;

// The length of the key in the cell at an offset.
pub(crate) fn key_len(page: &[u8], at: usize) -> Result<usize, PageFault>
    ensures { MatchResult result (λ len. CellAt page.now at len) (λ fault. (fault ≡ PageFault.Damaged at) × ((len : ℕ) → CellAt page.now at len → ⊥)) }
{
    if at >= page.len() {
        return Err(PageFault::Damaged(at));
    }
    let len = usize::from(page[at]);
    if len == 0 || len > 120 || page.len() - at <= len {
        return Err(PageFault::Damaged(at));
    }
    Ok(len)
}

// The end of so many cells from an offset on.
pub(crate) fn cells_end(page: &[u8], at: usize, count: usize) -> Result<usize, PageFault>
    requires { at ≤ length page.now }
    ensures bounds { MatchResult result (λ end. (at ≤ end) × (end ≤ length page.now)) (λ fault. Stops page.now fault) }
    ensures cells { (keys : List (List ℕ)) (rest : List ℕ) → drop at page.now ≡ flat_map cell keys ++ rest → All Sized keys → length keys ≡ count → result ≡ Ok (at + length (flat_map cell keys)) }
{
    let mut end = at;
    for i in 0..count {
        let len = key_len(page, end)?;
        end += 1 + len;
    }
    Ok(end)
}

// The number of a leaf's cells, and the end of those behind a place.
pub(crate) fn cells_behind(page: &[u8], place: Place) -> Result<(usize, usize), PageFault>
    ensures cells { (before behind : List (List ℕ)) → Leaf page.now (before ++ behind) → Behind before place → IsOkAnd result (λ told. (told.0 ≡ length (before ++ behind)) × (told.1 ≡ place.at + length (flat_map cell behind))) }
    ensures known { IfOk result (λ told. LeafHead page.now told.0 × (place.index ≤ told.0) × (4 ≤ place.at) × (place.at ≤ told.1) × (told.1 ≤ length page.now)) }
    ensures faults { IfErr result (λ fault. (fault ≡ PageFault.Damaged place.at) ⊎ Stops page.now fault) }
{
    let number = leaf_number(page)?;
    if place.at < 4 || place.at > page.len() || place.index > number {
        return Err(PageFault::Damaged(place.at));
    }
    let end = cells_end(page, place.at, number - place.index)?;
    Ok((number, end))
}
