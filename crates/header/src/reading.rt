ghost use Rattle.std.specs.Prelude.{◌≡◌, ◌-◌, ◌%◌, ◌^◌, ◌≤◌, MatchResult};
ghost use Rattle.header.specs.Fields.{numbers_of};
ghost use Rattle.header.specs.Headers.{numbers};
ghost use Rattle.header.specs.Reading.{HeaderRead};
ghost use Rattle.header.specs.ReadsBack.{NoFault, OneHeader};

use crate::directions::directions_in;
use crate::fault::HeaderFault;
use crate::fields::Fields;
use crate::head::Header;
use crate::places::{COLUMNS, HEADER_LEN, MARK};
use keys::Plan;

impl Fields {
    // The header that these numbers tell, once they are checked.
    fn header(self) -> Result<Header, HeaderFault>
        requires mark { self.mark ≡ 2652 }
        requires version { self.version ≡ 1 }
        requires at_rest { self.edit ≡ 0 }
        requires some { 1 ≤ self.columns }
        requires few { self.columns ≤ 8 }
        requires spare { self.directions % 2 ^ (8 - self.columns) ≡ 0 }
        requires zero { self.zero ≡ 0 }
        ensures { MatchResult result (λ header. numbers header ≡ numbers_of self) (λ _. ⊥) }
    {
        let columns = usize::from(self.columns);
        let directions = directions_in(self.directions, columns);
        let plan = Plan::new(&directions[..columns]).map_err(|_| HeaderFault::Field(COLUMNS))?;
        Ok(Header {
            edit_open: false,
            pages: self.pages,
            page_len: self.page_len,
            levels: self.levels,
            plan,
            root: self.root,
            first_free: self.first_free,
            free_pages: self.free_pages,
            rows: self.rows,
        })
    }
}

impl Header {
    // The header of a file at rest that has so many pages of this length.
    #[tactic(auto, using(crate::proofs::Laws::no_fault, crate::proofs::Laws::one_header))]
    pub fn read(page: &[u8], pages: usize, page_len: usize) -> Result<Header, HeaderFault>
        ensures header { HeaderRead pages page_len page.now result }
        ensures sound { NoFault pages page_len page.now }
        ensures one { OneHeader }
    {
        if page.len() < HEADER_LEN {
            return Err(HeaderFault::Field(MARK));
        }
        let fields = Fields::in_page(page);
        let (_, behind) = page.split_at(HEADER_LEN);
        fields.check(pages, page_len, behind)?;
        fields.header()
    }
}
