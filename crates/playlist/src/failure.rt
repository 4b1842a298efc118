use std::alloc::AllocError;
use std::io;

// Why the program ends with status 1.
#[derive(Drop)]
pub enum Failure {
    // a command given by an argument was refused or bad
    Refused,
    // no memory
    Memory,
    // standard input or output failed
    Stream(io::Error),
}

impl From<io::Error> for Failure {
    fn from(error: io::Error) -> Failure {
        Failure::Stream(error)
    }
}

impl From<AllocError> for Failure {
    fn from(_error: AllocError) -> Failure {
        Failure::Memory
    }
}
