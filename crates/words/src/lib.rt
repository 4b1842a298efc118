// Words of the command line: how a line falls into words, and how values, plans and numbers are read and printed.
#![tactic(auto)]

mod cut;
mod digits;
mod fault;
mod hex;
mod line;
mod number;
mod parts;
mod plan;
mod reading;
mod showing;
mod signed;
mod tens;

pub use fault::WordFault;
pub use hex::{push_hex, read_hex};
pub use line::split;
pub use number::read_number;
pub use plan::read_plan;
pub use reading::read_value;
pub use showing::push_value;
