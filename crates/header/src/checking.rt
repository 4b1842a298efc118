ghost use Rattle.std.specs.Prelude.{◌≡◌, ◌-◌, ◌%◌, ◌^◌, ◌==◌};
ghost use Rattle.header.specs.Fields.{numbers_of};
ghost use Rattle.header.specs.Headers.{widths};
ghost use Rattle.header.specs.Reading.{blank, field_tests, first_wrong, numbers_fault, fault_in};

use crate::blank::is_blank;
use crate::fault::HeaderFault;
use crate::fields::Fields;
use crate::places::{
    COLUMNS, DIRECTIONS, FIRST_FREE, KIND, LAYOUT, LEVELS, MARK, PAGE_LEN, PAGES, ROOT, VERSION,
    ZEROS,
};

impl Fields {
    // Whether the bits behind those of the columns are 0.
    fn is_spare_zero(self) -> bool
        ensures { result ≡ (self.directions % 2 ^ (8 - self.columns) == 0) }
    {
        let spare = 8usize.saturating_sub(usize::from(self.columns));
        u16::from(self.directions) % (1 << spare) == 0
    }

    // The first field that is wrong in a file of these pages, with the bytes behind the fields.
    fn first_wrong(self, pages: usize, page_len: usize, behind: &[u8]) -> Option<usize>
        ensures { result ≡ first_wrong 0 widths (field_tests pages page_len self.columns (blank behind.now)) (numbers_of self) }
    {
        let root = usize::from(self.root);
        if self.mark != KIND {
            Some(MARK)
        } else if self.version != LAYOUT {
            Some(VERSION)
        } else if usize::from(self.pages) != pages {
            Some(PAGES)
        } else if usize::from(self.page_len) != page_len {
            Some(PAGE_LEN)
        } else if self.levels < 1 {
            Some(LEVELS)
        } else if self.columns < 1 || self.columns > 8 {
            Some(COLUMNS)
        } else if !self.is_spare_zero() {
            Some(DIRECTIONS)
        } else if root < 1 || root >= pages {
            Some(ROOT)
        } else if usize::from(self.first_free) >= pages {
            Some(FIRST_FREE)
        } else if self.zero != 0 || !is_blank(behind) {
            Some(ZEROS)
        } else {
            None
        }
    }

    // Refuses what is wrong in a file at rest of these pages.
    #[tactic(auto, unfolding(crate::specs::Reading::numbers_fault))]
    pub(crate) fn check(
        self,
        pages: usize,
        page_len: usize,
        behind: &[u8],
    ) -> Result<(), HeaderFault>
        ensures { fault_in result ≡ numbers_fault pages page_len (numbers_of self) (blank behind.now) }
    {
        if let Some(bit) = self.first_wrong(pages, page_len, behind) {
            return Err(HeaderFault::Field(bit));
        }
        if self.edit != 0 {
            return Err(HeaderFault::EditOpen);
        }
        Ok(())
    }
}
