ghost use Rattle.std.specs.Prelude.{◌≡◌, ℕ, ◌+◌, ◌<◌, ◌≤◌, ◌⊎◌, List, [], ◌∷◌, ◌++◌, length, All, IfErr, IfOk};
ghost use Rattle.std.specs.List.{flat_map};
ghost use Rattle.layout.specs.Faults.{Stops};
ghost use Rattle.layout.specs.Leaf.{leaf_bytes, cell, Leaf, LeafHead, Sized};
ghost use Rattle.layout.specs.Places.{Behind, HasPlace};

use crate::bytes::{close, open};
use crate::cells::{cells_behind, cells_end, key_len};
use crate::fault::PageFault;
use crate::head::{leaf_number, set_number, write_page};
use crate::place::Place;

// Makes the page a leaf without keys. Bytes that have no room for a head stay as they are.
pub fn write_empty_leaf(page: &mut [u8])
    ensures leaf { 4 ≤ length page.old → page.new ≡ leaf_bytes (length page.old) [] }
    ensures short { length page.old < 4 → page.new ≡ page.old }
{
    if page.len() >= 4 {
        write_page(page, 1, 0, 0, &[]);
    }
}

// Puts a key into a leaf at a place.
pub fn insert(page: &mut [u8], place: Place, key: &[u8]) -> Result<(), PageFault>
    ensures inserted { (before behind : List (List ℕ)) → Leaf page.old (before ++ behind) → Behind before place → Sized key.now → 4 + length (flat_map cell (before ++ key.now ∷ behind)) ≤ length page.old → (result ≡ Ok tt) × Leaf page.new (before ++ key.now ∷ behind) }
    ensures full { (before behind : List (List ℕ)) → Leaf page.old (before ++ behind) → Behind before place → Sized key.now → length page.old < 4 + length (flat_map cell (before ++ key.now ∷ behind)) → result ≡ Err PageFault.Full }
    ensures sized { (Sized key.now → ⊥) → result ≡ Err PageFault.KeyLength }
    ensures faults { Sized key.now → IfErr result (λ fault. ((fault ≡ PageFault.Full) × HasPlace page.old place) ⊎ ((fault ≡ PageFault.Damaged place.at) ⊎ Stops page.old fault)) }
    ensures counted { IfOk result (λ _. (number : ℕ) × LeafHead page.old number × LeafHead page.new (number + 1)) }
    ensures unchanged { IfErr result (λ _. page.new ≡ page.old) }
{
    if key.is_empty() || key.len() > 120 {
        return Err(PageFault::KeyLength);
    }
    insert_sized(page, place, key)
}

// The same for a key that has as many bytes as a key may have.
fn insert_sized(page: &mut [u8], place: Place, key: &[u8]) -> Result<(), PageFault>
    requires low { 1 ≤ length key.now }
    requires high { length key.now ≤ 120 }
    ensures inserted { (before behind : List (List ℕ)) → Leaf page.old (before ++ behind) → Behind before place → 4 + length (flat_map cell (before ++ key.now ∷ behind)) ≤ length page.old → (result ≡ Ok tt) × Leaf page.new (before ++ key.now ∷ behind) }
    ensures full { (before behind : List (List ℕ)) → Leaf page.old (before ++ behind) → Behind before place → length page.old < 4 + length (flat_map cell (before ++ key.now ∷ behind)) → result ≡ Err PageFault.Full }
    ensures faults { IfErr result (λ fault. ((fault ≡ PageFault.Full) × HasPlace page.old place) ⊎ ((fault ≡ PageFault.Damaged place.at) ⊎ Stops page.old fault)) }
    ensures counted { IfOk result (λ _. (number : ℕ) × LeafHead page.old number × LeafHead page.new (number + 1)) }
    ensures unchanged { IfErr result (λ _. page.new ≡ page.old) }
{
    let (number, end) = cells_behind(page, place)?;
    if number == 16383 || page.len() - end <= key.len() {
        return Err(PageFault::Full);
    }
    open(page, place.at, end, key);
    set_number(page, number + 1);
    Ok(())
}

// Takes the key at a place out of a leaf.
pub fn remove(page: &mut [u8], place: Place) -> Result<(), PageFault>
    ensures removed { (before behind : List (List ℕ)) (key : List ℕ) → Leaf page.old (before ++ key ∷ behind) → Behind before place → (result ≡ Ok tt) × Leaf page.new (before ++ behind) }
    ensures faults { IfErr result (λ fault. (fault ≡ PageFault.Damaged place.at) ⊎ Stops page.old fault) }
    ensures counted { IfOk result (λ _. (number : ℕ) × LeafHead page.old (number + 1) × LeafHead page.new number) }
    ensures unchanged { IfErr result (λ _. page.new ≡ page.old) }
{
    let number = leaf_number(page)?;
    if place.at < 4 || place.index >= number {
        return Err(PageFault::Damaged(place.at));
    }
    let len = key_len(page, place.at)?;
    let from = place.at + (1 + len);
    let end = cells_end(page, from, number - place.index - 1)?;
    close(page, place.at, from, end);
    set_number(page, number - 1);
    Ok(())
}

// Parts a leaf at a place: the keys before it stay, and those behind it make the other page a leaf.
pub fn split(page: &mut [u8], right: &mut [u8], place: Place) -> Result<(), PageFault>
    ensures parted { (before behind : List (List ℕ)) → Leaf page.old (before ++ behind) → Behind before place → length right.old ≤ 1024 → 4 + length (flat_map cell behind) ≤ length right.old → (result ≡ Ok tt) × Leaf page.new before × Leaf right.new behind }
    ensures full { (before behind : List (List ℕ)) → Leaf page.old (before ++ behind) → Behind before place → length right.old < 4 + length (flat_map cell behind) → result ≡ Err PageFault.Full }
    ensures faults { IfErr result (λ fault. ((fault ≡ PageFault.Full) × HasPlace page.old place) ⊎ ((fault ≡ PageFault.Damaged place.at) ⊎ Stops page.old fault)) }
    ensures counted { IfOk result (λ _. (number : ℕ) × LeafHead page.old (place.index + number) × LeafHead page.new place.index × LeafHead right.new number) }
    ensures unchanged { IfErr result (λ _. (page.new ≡ page.old) × (right.new ≡ right.old)) }
{
    let (number, end) = cells_behind(page, place)?;
    if right.len() < 4 || right.len() - 4 < end - place.at {
        return Err(PageFault::Full);
    }
    write_page(right, 1, number - place.index, 0, &page[place.at..end]);
    close(page, place.at, end, end);
    set_number(page, place.index);
    Ok(())
}
