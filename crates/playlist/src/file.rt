use crate::fault::Fault;
use std::{fs, io};

// The most bytes of an image.
pub const MAX_IMAGE: usize = 100_000_000;

// The bytes of the file that a word names, if they are few enough for an image.
pub fn load(rt: &HostRuntime, word: &[u8]) -> Result<Vec<u8>, Fault> {
    let bytes = fs::read(rt, path_of(word)?).map_err(fault_of)?;
    if bytes.len() > MAX_IMAGE {
        return Err(Fault::File);
    }
    Ok(bytes)
}

// Writes the bytes to the file that a word names.
pub fn save(rt: &HostRuntime, word: &[u8], bytes: &[u8]) -> Result<(), Fault> {
    fs::write(rt, path_of(word)?, bytes).map_err(fault_of)
}

// The path that a word names: what stands between its marks, or the word itself.
fn path_of(word: &[u8]) -> Result<&str, Fault> {
    let path = match word {
        [b'"', path @ .., b'"'] => path,
        _ => word,
    };
    std::str::from_utf8(path).map_err(|_| Fault::File)
}

// What a failure of the file system is for a line.
fn fault_of(error: io::Error) -> Fault {
    match error.kind() {
        io::ErrorKind::OutOfMemory => Fault::Memory,
        _ => Fault::File,
    }
}
