ghost use Rattle.std.specs.Prelude.{◌≡◌, ℕ, ◌+◌, ◌-◌, ◌<◌, ◌≤◌, ◌∷◌, ◌++◌, List, length, map, nat_le, IfErr, IfOk};
ghost use Rattle.std.specs.List.{flat_map};
ghost use Rattle.std.specs.Result.{IsOkAnd};
ghost use Rattle.separators.specs.Halves.{Halves, split_point};
ghost use Rattle.layout.specs.Leaf.{cell, cell_len, Leaf, Sized};
ghost use Rattle.layout.specs.Places.{Behind};
ghost use Rattle.layout.specs.Cuts.{Parted};

use crate::cells::{cells_end, key_len};
use crate::cut::Cut;
use crate::fault::PageFault;
use crate::head::leaf_number;
use crate::place::Place;
use separators::Half;

// Where a leaf is parted that has one more key at a place.
pub fn half_way(page: &[u8], place: Place, key: &[u8]) -> Result<Cut, PageFault>
    ensures parted { (before behind : List (List ℕ)) → Leaf page.now (before ++ behind) → Behind before place → IsOkAnd result (λ cut. Parted before behind (split_point (map cell_len (before ++ key.now ∷ behind))) cut) }
    ensures fits { IfOk result (λ _. (before behind : List (List ℕ)) → Leaf page.now (before ++ behind) → Sized key.now → 367 ≤ length page.now → length page.now < 4 + length (flat_map cell (before ++ key.now ∷ behind)) → Halves (length page.now - 4) (map cell_len (before ++ key.now ∷ behind)) (split_point (map cell_len (before ++ key.now ∷ behind)))) }
    ensures faults { IfErr result (λ fault. (at : ℕ) × (at ≤ length page.now) × (fault ≡ PageFault.Damaged at)) }
{
    let number = leaf_number(page)?;
    let end = cells_end(page, 4, number)?;
    let mut half = Half::new(end - 4 + (1 + key.len()));
    let mut at = 4;
    let mut index = 0;
    for turn in 0..number + 1 {
        let mut size = 1 + key.len();
        if turn != place.index {
            size = 1 + key_len(page, at)?;
            at += size;
            index += 1;
        }
        if half.add(size) {
            let stays = has_passed(place, turn);
            return Ok(Cut { index, at, stays });
        }
    }
    Err(PageFault::Damaged(at))
}

// Whether the new key's turn, which is that of its place, has been.
fn has_passed(place: Place, turn: usize) -> bool
    ensures { result ≡ nat_le place.index turn }
{
    place.index <= turn
}
