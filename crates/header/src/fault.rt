ghost use Rattle.header.specs.Refusals.{header_told};

use refusals::{Refusal, Refused};

// Why a page is not taken for the header of a file at rest.
#[derive(Clone, Copy, PartialEq, Eq, Debug)]
pub enum HeaderFault {
    // The first field that is wrong, by its first bit.
    Field(usize),
    // All fields are right, and an edit is open.
    EditOpen,
}

impl Refusal for HeaderFault {
    ghost told = { header_told };

    fn refused(&self) -> Refused {
        match *self {
            HeaderFault::Field(bit) => Refused::new(12, &[bit]),
            HeaderFault::EditOpen => Refused::new(13, &[]),
        }
    }
}
