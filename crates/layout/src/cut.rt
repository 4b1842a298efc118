// Where a leaf with one more key is parted.
#[derive(Clone, Copy, PartialEq, Eq, Debug)]
pub struct Cut {
    // The number of the leaf's own cells that stay.
    pub index: usize,
    // The offset behind them.
    pub at: usize,
    // Whether the new key stays with them.
    pub stays: bool,
}
