use crate::sign::Sign;

mod digits;
mod exponent;
mod making;
mod parts;

pub use digits::Digits;
pub use exponent::Exponent;

// A decimal other than zero: a sign, an exponent, and 1 to 16 digits in base 100.
#[derive(Clone, Copy)]
pub struct Amount {
    pub(crate) sign: Sign,
    pub(crate) exponent: Exponent,
    pub(crate) digits: Digits,
}

// A decimal number.
#[derive(Clone, Copy)]
pub enum Decimal {
    Zero,
    Amount(Amount),
}
