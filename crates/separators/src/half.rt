ghost use Rattle.std.specs.Prelude.{◌≡◌, ℕ, ◌-◌, ◌*◌, ◌<◌, ◌↔◌, List, [], ◌∷◌, ◌++◌, length, sum, suc, IsTrue};
ghost use Rattle.std.specs.Bool.{OnFalse, OnTrue};
ghost use Rattle.separators.specs.Halves.{AreHalf, Counted, Halves, Overfull, lacking, split_point};

// Counts the cells of a page from the front up to half of their bytes.
#[derive(Clone, Copy)]
pub struct Half {
    // twice what the cells so far are short of half
    missing: usize,
}

impl Half {
    // Before the first cell, of cells that have this many bytes in all.
    pub fn new(total: usize) -> Half
        ensures all { lacking result ≡ total }
        ensures start { (sizes : List ℕ) → sum sizes ≡ total → 0 < total → Counted sizes [] result }
        ensures fewest { (sizes : List ℕ) → AreHalf sizes (split_point sizes) }
        ensures halves { (room c : ℕ) (sizes : List ℕ) → Overfull room c sizes → Halves room sizes (split_point sizes) }
    {
        Half { missing: total }
    }

    // Counts the next cell, and answers whether the cells so far make up half of all.
    #[tactic(auto, using(crate::proofs::HalfWay::arrive, crate::proofs::HalfWay::with_next))]
    pub fn add(&mut self, size: usize) -> bool
        ensures left { lacking self.new ≡ lacking self.old - 2 * size }
        ensures half { IsTrue result ↔ (lacking self.new ≡ 0) }
        ensures reached { (sizes before after : List ℕ) → sizes ≡ before ++ size ∷ after → Counted sizes before self.old → OnTrue result (split_point sizes ≡ suc (length before)) }
        ensures short { (sizes before after : List ℕ) → sizes ≡ before ++ size ∷ after → Counted sizes before self.old → OnFalse result (Counted sizes (before ++ size ∷ []) self.new) }
    {
        self.missing = self.missing.saturating_sub(size.saturating_mul(2));
        self.missing == 0
    }
}
