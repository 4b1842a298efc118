// Plans, records and their keys.
#![tactic(auto)]

mod comparing;
mod direction;
mod key;
mod key_reader;
mod plan;
mod reading;
mod row;

pub use codes::{Amount, Decimal, KeyFault, Sign, Text, Value};
pub use comparing::compare;
pub use direction::Direction;
pub use key::{MAX_KEY, key_len, write_key};
pub use plan::Plan;
pub use reading::{check_key, read_column};
pub use row::Record;
