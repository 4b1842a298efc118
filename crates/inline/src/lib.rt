// Lists of at most a fixed number of plain values, which lie in the list itself: no memory is asked for.
#![tactic(auto)]

mod list;
mod making;
mod reading;

pub use list::Inline;
pub use making::Full;
