// The header page, page 0 of an index file: its fields as data and as bits.
#![tactic(auto)]

mod bits;
mod blank;
mod checking;
mod directions;
mod edit;
mod fault;
mod fields;
mod head;
mod packing;
mod places;
mod reading;
mod unpacking;
mod writing;

pub use edit::set_edit;
pub use fault::HeaderFault;
pub use head::Header;
pub use writing::ShortPage;
