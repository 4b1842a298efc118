ghost use Rattle.std.specs.Prelude.{◌≡◌};
ghost use Rattle.words.specs.declared.fault.WordFault.TheVariants.{Key, Memory};

use keys::KeyFault;
use std::alloc::{AllocError, AllocFailed};

// Why a line cannot be split, or a word cannot be read.
#[derive(Clone, Copy)]
pub enum WordFault {
    // not the form that is asked for
    Form,
    // a value that is refused
    Key(KeyFault),
    // no memory
    Memory,
}

impl From<KeyFault> for WordFault {
    ghost from_gives = { λ f r. r ≡ Key f };

    fn from(fault: KeyFault) -> WordFault {
        WordFault::Key(fault)
    }
}

impl From<AllocError> for WordFault {
    ghost from_gives = { λ _ r. r ≡ Memory };

    fn from(_fault: AllocError) -> WordFault {
        WordFault::Memory
    }
}

impl<T: Drop> From<AllocFailed<T>> for WordFault {
    ghost from_gives = { λ _ r. r ≡ Memory };

    fn from(_fault: AllocFailed<T>) -> WordFault {
        WordFault::Memory
    }
}
