ghost use Rattle.std.specs.Prelude.{◌≡◌, ℕ, ◌+◌, ◌≤◌, ◌++◌, List, length, drop, IfOk, IsTrue, MatchResult};
ghost use Rattle.std.specs.Result.{IsOkAnd};
ghost use Rattle.layout.specs.Faults.{Stops};
ghost use Rattle.layout.specs.Leaf.{cell, Leaf, Rising};
ghost use Rattle.layout.specs.Places.{Found};

use crate::cells::key_len;
use crate::fault::PageFault;
use crate::head::leaf_number;
use crate::place::Place;
use keys::compare;
use std::cmp::Ordering;

// Where a key is in a leaf, or where it would go; the cells behind the place are not looked at.
pub fn find(page: &[u8], key: &[u8]) -> Result<Place, PageFault>
    ensures found { (keys : List (List ℕ)) → Leaf page.now keys → Rising keys → IsOkAnd result (λ place. Found key.now keys place) }
    ensures own { IfOk result (λ place. IsTrue place.present → drop place.at page.now ≡ cell key.now ++ drop (place.at + (1 + length key.now)) page.now) }
    ensures bounds { MatchResult result (λ place. (4 ≤ place.at) × (place.at ≤ length page.now)) (λ fault. Stops page.now fault) }
{
    let number = leaf_number(page)?;
    let mut at = 4;
    for index in 0..number {
        let len = key_len(page, at)?;
        match compare(&page[at + 1..at + 1 + len], key) {
            Ordering::Less => at += 1 + len,
            Ordering::Equal => {
                return Ok(Place {
                    present: true,
                    index,
                    at,
                });
            }
            Ordering::Greater => {
                return Ok(Place {
                    present: false,
                    index,
                    at,
                });
            }
        }
    }
    Ok(Place {
        present: false,
        index: number,
        at,
    })
}
