use crate::fault::Fault;
use std::alloc::Global;
use stores::{Image, PageStore, Seal, StoreFault};

// How many seals lie over an image.
#[derive(Clone, Copy)]
pub enum Seals {
    None,
    One,
    Two,
}

// The store that the program works on: an image under its seals.
#[derive(Drop)]
pub enum Store {
    Plain(Image),
    Sealed(Seal<Image>),
    SealedTwice(Seal<Seal<Image>>),
}

impl Store {
    // The image under these seals.
    pub fn new(image: Image, seals: Seals) -> Store {
        match seals {
            Seals::None => Store::Plain(image),
            Seals::One => Store::Sealed(Seal::new(image)),
            Seals::Two => Store::SealedTwice(Seal::new(Seal::new(image))),
        }
    }

    // The image, and how many seals lay over it.
    pub fn into_image(self) -> (Image, Seals) {
        match self {
            Store::Plain(image) => (image, Seals::None),
            Store::Sealed(seal) => (seal.into_lower(), Seals::One),
            Store::SealedTwice(seal) => (seal.into_lower().into_lower(), Seals::Two),
        }
    }

    // The count of the topmost store's pages, and their length.
    pub fn shape(&self) -> (usize, usize) {
        match self {
            Store::Plain(image) => (image.page_count(), image.page_len()),
            Store::Sealed(seal) => (seal.page_count(), seal.page_len()),
            Store::SealedTwice(seal) => (seal.page_count(), seal.page_len()),
        }
    }

    // Page p of the topmost store.
    pub fn page(&self, heap: Global, p: usize) -> Result<Vec<u8>, Fault> {
        match self {
            Store::Plain(image) => page_of(heap, image, p),
            Store::Sealed(seal) => page_of(heap, seal, p),
            Store::SealedTwice(seal) => page_of(heap, seal, p),
        }
    }

    // Replaces page p of the topmost store.
    pub fn put(&mut self, p: usize, bytes: &[u8]) -> Result<(), StoreFault> {
        match self {
            Store::Plain(image) => image.write(p, bytes),
            Store::Sealed(seal) => seal.write(p, bytes),
            Store::SealedTwice(seal) => seal.write(p, bytes),
        }
    }
}

// Page p of a store.
fn page_of<S: PageStore>(heap: Global, store: &S, p: usize) -> Result<Vec<u8>, Fault> {
    let mut page = vec![in heap; 0u8; store.page_len()]?;
    store.read(p, page.as_mut_slice())?;
    Ok(page)
}
