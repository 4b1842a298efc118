ghost use Rattle.std.specs.Prelude.{◌≡◌, ◌≤◌, length};
ghost use Rattle.header.specs.Fields.{numbers_in, numbers_of};

use crate::bits::bits;
use crate::fields::Fields;
use crate::places::{
    COLUMNS, DIRECTIONS, EDIT, END, FIRST_FREE, FREE_PAGES, LEVELS, MARK, PAGE_LEN, PAGES, ROOT,
    ROWS, VERSION, ZEROS,
};

impl Fields {
    // The numbers that lie in the page; `as` loses nothing, since each is within its bits.
    pub(crate) fn in_page(page: &[u8]) -> Fields
        requires { 18 ≤ length page.now }
        ensures { numbers_of result ≡ numbers_in page.now }
    {
        Fields {
            mark: bits(page, MARK, VERSION) as u16,
            version: bits(page, VERSION, EDIT) as u8,
            edit: bits(page, EDIT, PAGES) as u8,
            pages: bits(page, PAGES, PAGE_LEN) as u16,
            page_len: bits(page, PAGE_LEN, LEVELS) as u16,
            levels: bits(page, LEVELS, COLUMNS) as u8,
            columns: bits(page, COLUMNS, DIRECTIONS) as u8,
            directions: bits(page, DIRECTIONS, ROOT) as u8,
            root: bits(page, ROOT, FIRST_FREE) as u16,
            first_free: bits(page, FIRST_FREE, FREE_PAGES) as u16,
            free_pages: bits(page, FREE_PAGES, ROWS) as u16,
            rows: bits(page, ROWS, ZEROS),
            zero: bits(page, ZEROS, END) as u8,
        }
    }
}
