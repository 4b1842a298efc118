use anyhow::anyhow;
use keys::Direction;
use std::alloc::Global;

// A column for each letter: `a` ascends, `d` descends, and "-" is none.
pub fn columns_of(heap: Global, word: &str) -> anyhow::Result<Vec<Direction>> {
    let mut columns = Vec::new(heap);
    for letter in word.as_bytes() {
        match *letter {
            b'a' => columns.push(Direction::Ascending)?,
            b'd' => columns.push(Direction::Descending)?,
            b'-' => {}
            _ => return Err(anyhow!("no such column")),
        }
    }
    Ok(columns)
}

// A byte for each pair of hexadecimal digits, and none for "-". A pair may be a plus and one digit, which the library's `hex` refuses.
pub fn bytes_of(heap: Global, word: &str) -> anyhow::Result<Vec<u8>> {
    let mut bytes = Vec::new(heap);
    if word == "-" {
        return Ok(bytes);
    }
    if word.len() % 2 != 0 {
        return Err(anyhow!("half a byte"));
    }
    // By an index, and a match: `as_chunks` with `from_utf8` for each pair was tried, and the program took a third more instructions; with `ok_or_else`, a fifth.
    for i in 0..word.len() / 2 {
        match word.get(2 * i..2 * i + 2) {
            Some(pair) => bytes.push(u8::from_str_radix(pair, 16)?)?,
            None => return Err(anyhow!("no hexadecimal digits")),
        }
    }
    Ok(bytes)
}

// The numbers between the commas, and none for "-".
pub fn digits_of(heap: Global, word: &str) -> anyhow::Result<Vec<u8>> {
    let mut digits = Vec::new(heap);
    if word == "-" {
        return Ok(digits);
    }
    for digit in word.split(',') {
        digits.push(digit.parse::<u8>()?)?;
    }
    Ok(digits)
}
