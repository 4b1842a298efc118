use crate::fault::Fault;
use crate::file::{load, save};
use crate::store::{Seals, Store};
use crate::store_command::StoreCommand;
use stores::{Image, PageStore};
use words::push_hex;

// The store that commands work on, if one was made.
#[derive(Drop)]
pub struct Workspace {
    store: Option<Store>,
}

impl Workspace {
    pub fn new() -> Workspace {
        Workspace { store: None }
    }

    // Runs a command, and adds what it shows.
    pub fn run(
        &mut self,
        rt: &HostRuntime,
        command: StoreCommand,
        shown: &mut Vec<u8>,
    ) -> Result<(), Fault> {
        match command {
            StoreCommand::Image {
                bytes,
                page_len,
                seals,
            } => {
                Image::check(page_len)?;
                let area = vec![in rt.alloc(); 0u8; bytes]?;
                self.make(rt, area, page_len, seals, shown)
            }
            StoreCommand::Load {
                file,
                page_len,
                seals,
            } => {
                Image::check(page_len)?;
                let area = load(rt, file.as_slice())?;
                self.make(rt, area, page_len, seals, shown)
            }
            StoreCommand::Save(file) => self.save(rt, file.as_slice(), shown),
            StoreCommand::Page(p) => {
                let store = self.store.as_ref().ok_or(Fault::State)?;
                let page = store.page(rt.alloc(), p)?;
                shown.push(b' ')?;
                push_hex(shown, page.as_slice())?;
                Ok(())
            }
            StoreCommand::Put(p, bytes) => {
                let store = self.store.as_mut().ok_or(Fault::State)?;
                Ok(store.put(p, bytes.as_slice())?)
            }
        }
    }

    // Works over this area from now on, and shows the count and the length of the topmost store's pages.
    fn make(
        &mut self,
        rt: &HostRuntime,
        area: Vec<u8>,
        page_len: usize,
        seals: Seals,
        shown: &mut Vec<u8>,
    ) -> Result<(), Fault> {
        let store = Store::new(Image::new(area, page_len), seals);
        let (count, len) = store.shape();
        let text = format!(in rt.alloc(); " {count} {len}")?;
        shown.extend_from_slice(text.as_bytes())?;
        self.store = Some(store);
        Ok(())
    }

    // Writes the whole area to a file, and shows its length.
    fn save(&mut self, rt: &HostRuntime, file: &[u8], shown: &mut Vec<u8>) -> Result<(), Fault> {
        let (image, seals) = self.store.take().ok_or(Fault::State)?.into_image();
        let page_len = image.page_len();
        let area = image.into_area();
        let len = area.len();
        let saved = save(rt, file, area.as_slice());
        self.store = Some(Store::new(Image::new(area, page_len), seals));
        saved?;
        let text = format!(in rt.alloc(); " {len}")?;
        shown.extend_from_slice(text.as_bytes())?;
        Ok(())
    }
}
