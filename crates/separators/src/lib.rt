// What a prefix B-tree needs where a page splits: the separator of two keys, and the point at which the cells are parted.
#![tactic(auto)]

mod half;
mod separating;

pub use half::Half;
pub use separating::{common_prefix_len, separator};
