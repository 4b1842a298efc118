use crate::command::MAX_NUMBER;
use crate::file::MAX_IMAGE;
use crate::store::Seals;
use std::alloc::Global;
use words::{WordFault, read_hex, read_number};

// A command on stores, with its words read.
#[derive(Drop)]
pub enum StoreCommand {
    // makes a store over a new area of zeros
    Image {
        bytes: usize,
        page_len: usize,
        seals: Seals,
    },
    // makes a store over the bytes of a file
    Load {
        file: Vec<u8>,
        page_len: usize,
        seals: Seals,
    },
    // writes the area to a file
    Save(Vec<u8>),
    // reads a page
    Page(usize),
    // writes a page
    Put(usize, Vec<u8>),
}

impl StoreCommand {
    // The command that a name and the words behind it give.
    pub fn read(heap: Global, name: &[u8], words: &[&[u8]]) -> Result<StoreCommand, WordFault> {
        match (name, words) {
            (b"image", [bytes, page_len, seals]) => Ok(StoreCommand::Image {
                bytes: read_number(*bytes, MAX_IMAGE)?,
                page_len: read_number(*page_len, MAX_NUMBER)?,
                seals: read_seals(*seals)?,
            }),
            (b"load", [file, page_len, seals]) => Ok(StoreCommand::Load {
                file: Vec::from_slice(heap, *file)?,
                page_len: read_number(*page_len, MAX_NUMBER)?,
                seals: read_seals(*seals)?,
            }),
            (b"save", [file]) => Ok(StoreCommand::Save(Vec::from_slice(heap, *file)?)),
            (b"page", [p]) => Ok(StoreCommand::Page(read_number(*p, MAX_NUMBER)?)),
            (b"put", [p, pairs]) => {
                let p = read_number(*p, MAX_NUMBER)?;
                let mut bytes = Vec::new(heap);
                read_hex(*pairs, &mut bytes)?;
                Ok(StoreCommand::Put(p, bytes))
            }
            _ => Err(WordFault::Form),
        }
    }
}

// How many seals a word asks for: 0, 1 or 2.
fn read_seals(word: &[u8]) -> Result<Seals, WordFault> {
    match read_number(word, 2)? {
        0 => Ok(Seals::None),
        1 => Ok(Seals::One),
        _ => Ok(Seals::Two),
    }
}
