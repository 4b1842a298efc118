ghost use Rattle.std.specs.Prelude.{◌<◌};

use keys::Plan;

// What the header page tells of its file.
#[derive(Clone, Copy)]
pub struct Header {
    // whether an edit has begun that has not ended
    pub edit_open: bool,
    // all pages of the file, this one counted
    pub pages: u16,
    pub page_len: u16,
    pub levels: u8,
    pub plan: Plan,
    pub root: u16,
    // 0 for none
    pub first_free: u16,
    pub free_pages: u16,
    pub rows: u32,
    ghost short: { page_len < 2048 },
    ghost low: { levels < 8 },
}
