// Values, and the column codes that stand for them in keys.
#![tactic(auto)]

mod class;
mod code;
mod decimal;
mod fault;
mod sign;
mod source;
mod stop;
mod unread;
mod value;

pub use code::ColumnCode;
pub use code::descending::Descending;
pub use code::null::Null;
pub use decimal::{Amount, Decimal};
pub use fault::KeyFault;
pub use sign::Sign;
pub use source::Source;
pub use stop::Stop;
pub use unread::Unread;
pub use value::{Text, Value};
