use refusals::{Refusal, Refused};
use std::alloc::{AllocError, AllocFailed};
use stores::StoreFault;
use words::WordFault;

// Why a line is not answered by `ok`.
#[derive(Clone, Copy)]
pub enum Fault {
    // not a command, a wrong number of words, or a word that cannot be read
    Line,
    // a command that is not allowed now
    State,
    // a file that cannot be read or written
    File,
    // a refusal of a layer below
    Refused(Refused),
    // no memory
    Memory,
}

impl From<WordFault> for Fault {
    fn from(fault: WordFault) -> Fault {
        match fault {
            WordFault::Form => Fault::Line,
            WordFault::Key(fault) => Fault::Refused(fault.refused()),
            WordFault::Memory => Fault::Memory,
        }
    }
}

impl From<StoreFault> for Fault {
    fn from(fault: StoreFault) -> Fault {
        Fault::Refused(fault.refused())
    }
}

impl From<AllocError> for Fault {
    fn from(_error: AllocError) -> Fault {
        Fault::Memory
    }
}

impl<T: Drop> From<AllocFailed<T>> for Fault {
    fn from(_error: AllocFailed<T>) -> Fault {
        Fault::Memory
    }
}
