ghost use Rattle.std.specs.Prelude.{◌≡◌, ℕ, ◌+◌, ◌≤◌, List, length, MatchResult};
ghost use Rattle.std.specs.List.{flat_map};
ghost use Rattle.layout.specs.Checks.{Begins, NotLeaf};
ghost use Rattle.layout.specs.Leaf.{cell, Leaf, Rising, LeafHead};

use crate::bytes::nonzero;
use crate::cells::key_len;
use crate::fault::PageFault;
use crate::head::leaf_number;
use keys::compare;
use std::cmp::Ordering;

// The number of keys of a leaf, all of which is looked at, or the first thing that is wrong in it.
pub fn check_leaf(page: &[u8]) -> Result<usize, PageFault>
    ensures cases { MatchResult result (λ number. (keys : List (List ℕ)) × Leaf page.now keys × Rising keys × (number ≡ length keys)) (λ fault. NotLeaf page.now fault) }
    ensures accepts { (keys : List (List ℕ)) → Leaf page.now keys → Rising keys → result ≡ Ok (length keys) }
    ensures once { (keys others : List (List ℕ)) → Leaf page.now keys → Leaf page.now others → keys ≡ others }
{
    count_keys(page)
}

// The same, with no more said of it than what was seen.
fn count_keys(page: &[u8]) -> Result<usize, PageFault>
    ensures { MatchResult result (λ number. (keys : List (List ℕ)) × Leaf page.now keys × Rising keys × (number ≡ length keys)) (λ fault. NotLeaf page.now fault) }
{
    if page.len() > 1024 {
        return Err(PageFault::Damaged(0));
    }
    let number = leaf_number(page)?;
    if page[2] != 0 || page[3] != 0 {
        return Err(PageFault::Damaged(2));
    }
    let end = rising_end(page, number)?;
    match nonzero(&page[end..]) {
        Some(i) => Err(PageFault::Damaged(end + i)),
        None => Ok(number),
    }
}

// The end of so many cells with rising keys.
fn rising_end(page: &[u8], number: usize) -> Result<usize, PageFault>
    requires { LeafHead page.now number }
    ensures { MatchResult result (λ end. (keys : List (List ℕ)) × Begins page.now keys × (length keys ≡ number) × (end ≡ 4 + length (flat_map cell keys)) × (end ≤ length page.now)) (λ fault. NotLeaf page.now fault) }
{
    let mut end = 4;
    let mut last = &page[4..4];
    for index in 0..number {
        let len = key_len(page, end)?;
        let key = &page[end + 1..end + 1 + len];
        let Ordering::Less = compare(last, key) else {
            return Err(PageFault::Damaged(end));
        };
        last = key;
        end += 1 + len;
    }
    Ok(end)
}
