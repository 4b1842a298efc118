use keys::{Decimal, Sign, Value};
use std::fmt;

// Bytes as hexadecimal pairs; none as "-".
#[derive(Clone, Copy)]
pub struct Hex<'a>(pub &'a [u8]);

impl fmt::Display for Hex<'_> {
    fn fmt<W: fmt::Write>(&self, f: &mut fmt::Formatter<W>) -> fmt::Result {
        if self.0.is_empty() {
            write!(f, "-")?;
        }
        for b in self.0 {
            write!(f, "{b:02X}")?;
        }
        Ok(())
    }
}

// A value that was read: a decimal by its parts, a text by its length.
#[derive(Clone, Copy)]
pub struct Shown(pub Value);

impl fmt::Display for Shown {
    fn fmt<W: fmt::Write>(&self, f: &mut fmt::Formatter<W>) -> fmt::Result {
        let value = self.0;
        match value {
            Value::Null => write!(f, "null"),
            Value::Decimal(decimal) => show_decimal(decimal, f),
            Value::Text(text) => write!(f, "text {}", text.len),
        }
    }
}

// Writes zero, or a sign, an exponent, and digits with commas.
fn show_decimal<W: fmt::Write>(decimal: Decimal, f: &mut fmt::Formatter<W>) -> fmt::Result {
    match decimal {
        Decimal::Zero => write!(f, "zero"),
        Decimal::Amount(amount) => {
            let sign = match amount.sign() {
                Sign::Negative => '-',
                Sign::Positive => '+',
            };
            write!(f, "{sign} {} ", amount.exponent())?;
            let mut comma = "";
            for d in amount.digits() {
                write!(f, "{comma}{d}")?;
                comma = ",";
            }
            Ok(())
        }
    }
}
