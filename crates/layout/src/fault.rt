// Why a page refused a call.
#[derive(Clone, Copy, PartialEq, Eq, Debug)]
pub enum PageFault {
    // The page's bytes from this offset on are not what they have to be.
    Damaged(usize),
    // The page has no room for one more cell.
    Full,
    // A key has 1 to 120 bytes.
    KeyLength,
}
