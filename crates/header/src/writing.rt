ghost use Rattle.std.specs.Prelude.{◌≡◌};
ghost use Rattle.header.specs.Fields.{numbers_of};
ghost use Rattle.header.specs.Headers.{numbers, InFields};
ghost use Rattle.header.specs.Writing.{HeaderWritten};

use crate::directions::bits_of;
use crate::fields::Fields;
use crate::head::Header;
use crate::places::{HEADER_LEN, KIND, LAYOUT};

// A page has no room for a header.
#[derive(Clone, Copy, PartialEq, Eq, Debug)]
pub struct ShortPage;

impl Header {
    // The numbers of its fields; `as` loses nothing of at most 8 columns.
    fn fields(self) -> Fields
        ensures told { numbers_of result ≡ numbers self }
        ensures within { InFields self }
    {
        let directions = self.plan.directions();
        Fields {
            mark: KIND,
            version: LAYOUT,
            edit: u8::from(self.edit_open),
            pages: self.pages,
            page_len: self.page_len,
            levels: self.levels,
            columns: directions.len() as u8,
            directions: bits_of(directions),
            root: self.root,
            first_free: self.first_free,
            free_pages: self.free_pages,
            rows: self.rows,
            zero: 0,
        }
    }

    // Fills the page with this header.
    pub fn write(&self, page: &mut [u8]) -> Result<(), ShortPage>
        ensures { HeaderWritten self.now page.old page.new result }
    {
        if page.len() < HEADER_LEN {
            return Err(ShortPage);
        }
        self.fields().put(page);
        Ok(())
    }
}
