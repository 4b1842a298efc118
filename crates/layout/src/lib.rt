// Pages as bytes: free pages, and leaves with all work inside one leaf.
#![tactic(auto)]

mod bytes;
mod cells;
mod checking;
mod cut;
mod fault;
mod finding;
mod free;
mod halving;
mod head;
mod leaf;
mod place;

pub use checking::check_leaf;
pub use cut::Cut;
pub use fault::PageFault;
pub use finding::find;
pub use free::{read_free, write_free};
pub use halving::half_way;
pub use leaf::{insert, remove, split, write_empty_leaf};
pub use place::Place;
