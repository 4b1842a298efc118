ghost use Rattle.stores.specs.Faults.{store_told};

use refusals::{Refusal, Refused};

// Why a store refused a call. The number of each case is in specs/Faults.antt.
#[derive(Clone, Copy, PartialEq, Eq, Debug)]
pub enum StoreFault {
    // The store has no page of this number.
    NoSuchPage(usize),
    // A buffer shorter than a page, or bytes to write that are not one page.
    WrongLength,
    // The page of this number does not agree with its seal.
    Damaged(usize),
    // No image has pages of this length.
    PageLength,
}

impl Refusal for StoreFault {
    ghost told = { store_told };

    fn refused(&self) -> Refused {
        match *self {
            StoreFault::NoSuchPage(p) => Refused::new(9, &[p]),
            StoreFault::WrongLength => Refused::new(8, &[]),
            StoreFault::Damaged(p) => Refused::new(10, &[p]),
            StoreFault::PageLength => Refused::new(11, &[]),
        }
    }
}
