use crate::decimal::Decimal;

// A text, by the place where it lies in the bytes that are lent beside it. It may hold any bytes; one with a byte 00 is refused where a key is written. It is a place and no slice, so that a value is plain numbers that borrow nothing.
#[derive(Clone, Copy, PartialEq, Eq, Debug)]
pub struct Text {
    pub start: usize,
    pub len: usize,
}

// A value of a record.
#[derive(Clone, Copy)]
pub enum Value {
    Null,
    Decimal(Decimal),
    Text(Text),
}
