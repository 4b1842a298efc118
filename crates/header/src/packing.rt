ghost use Rattle.std.specs.Prelude.{◌≡◌, ◌+◌, ◌-◌, ◌*◌, ◌^◌, ◌<◌, ◌≤◌, length, take, drop};
ghost use Rattle.header.specs.Fields.{numbers_of};
ghost use Rattle.header.specs.Packing.{pack};
ghost use Rattle.header.specs.Headers.{widths, packed_page};

use crate::fields::Fields;
use crate::places::{
    COLUMNS, DIRECTIONS, EDIT, END, FIRST_FREE, FREE_PAGES, HEADER_LEN, LEVELS, PAGE_LEN, PAGES,
    ROOT, ROWS, VERSION, ZEROS,
};

// The number, and behind it a value in the bits from one place up to another.
fn with(number: u128, from: usize, to: usize, value: u32) -> u128
    requires some { from ≤ to }
    requires few { to ≤ from + 32 }
    requires room { number * 2 ^ (to - from) + value < 2 ^ 128 }
    ensures { result ≡ number * 2 ^ (to - from) + value }
{
    number * (1 << (to - from)) + u128::from(value)
}

impl Fields {
    // The fields up to the edit bit, packed.
    fn front(self) -> u16
        ensures { result ≡ pack 0 (take 3 widths) (take 3 (numbers_of self)) }
    {
        let number = u128::from(self.mark);
        let number = with(number, VERSION, EDIT, u32::from(self.version));
        with(number, EDIT, PAGES, u32::from(self.edit)) as u16
    }

    // The fields behind the edit bit, packed.
    fn rest(self) -> u128
        ensures { result ≡ pack 0 (drop 3 widths) (drop 3 (numbers_of self)) }
    {
        let number = u128::from(self.pages);
        let number = with(number, PAGE_LEN, LEVELS, u32::from(self.page_len));
        let number = with(number, LEVELS, COLUMNS, u32::from(self.levels));
        let number = with(number, COLUMNS, DIRECTIONS, u32::from(self.columns));
        let number = with(number, DIRECTIONS, ROOT, u32::from(self.directions));
        let number = with(number, ROOT, FIRST_FREE, u32::from(self.root));
        let number = with(number, FIRST_FREE, FREE_PAGES, u32::from(self.first_free));
        let number = with(number, FREE_PAGES, ROWS, u32::from(self.free_pages));
        let number = with(number, ROWS, ZEROS, self.rows);
        with(number, ZEROS, END, u32::from(self.zero))
    }

    // Fills the page with the packed fields and 00 behind them.
    pub(crate) fn put(self, page: &mut [u8])
        requires { 18 ≤ length page.old }
        ensures { page.new ≡ packed_page (length page.old) (numbers_of self) }
    {
        let (fields, behind) = page.split_at_mut(HEADER_LEN);
        let (front, rest) = fields.split_at_mut(2);
        front.copy_from_slice(&self.front().to_be_bytes());
        rest.copy_from_slice(&self.rest().to_be_bytes());
        behind.fill(0);
    }
}
