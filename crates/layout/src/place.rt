// Where a key is in a page, or where it would go.
#[derive(Clone, Copy, PartialEq, Eq, Debug)]
pub struct Place {
    // Whether the cell at the place is the key's own.
    pub present: bool,
    // The number of cells before the place.
    pub index: usize,
    // The offset of the place in bytes.
    pub at: usize,
}
