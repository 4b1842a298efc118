use std::alloc::AllocError;
use std::env::FillError;
use std::rt::Env;

// A line without the 0A that ends it.
pub fn without_newline(line: &[u8]) -> &[u8] {
    match line {
        [text @ .., b'\n'] => text,
        _ => line,
    }
}

// Argument `i`, which may be any bytes, if there is one. A place too short for it is doubled: the loop counts tries, of which the 32nd has room for any argument.
pub fn argument(rt: &HostRuntime, i: usize) -> Result<Option<Vec<u8>>, AllocError> {
    let mut line = vec![in rt.alloc(); 0u8; 256]?;
    for _ in 0..32 {
        match rt.arg(i, line.as_mut_slice()) {
            Ok(len) => {
                line.truncate(len);
                return Ok(Some(line));
            }
            Err(FillError::NotPresent) => return Ok(None),
            Err(FillError::TooLong) => line.resize(line.len().saturating_mul(2), 0)?,
        }
    }
    Ok(None)
}
