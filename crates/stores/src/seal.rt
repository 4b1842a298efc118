ghost use Rattle.std.specs.Prelude.{◌≡◌, ◌-◌, ◌<◌, length, Ok, slice_index_or, slice_set};
ghost use Rattle.stores.specs.Pages.{sound, damaged};
ghost use Rattle.stores.specs.Detects.{Detects};
ghost use Rattle.stores.specs.Opened.{open_pages, Opens};
ghost use Rattle.stores.specs.Opens.{short as short_opened, few as few_opened, sized as sized_opened};

use crate::fault::StoreFault;
use crate::front::put_front;
use crate::page_data::PageData;
use crate::shape::Shape;
use crate::store::PageStore;
use crate::sums::agrees;

// A store whose pages lie in the store below with two sums behind their bytes.
#[derive(Drop)]
pub struct Seal<S> {
    lower: S,
}

impl<S> Seal<S> {
    // Seals a store. Which changes below it a seal detects stands in specs/Detects.antt.
    #[tactic(auto, using(crate::proofs::Detected::detects))]
    pub fn new(lower: S) -> Seal<S>
        ensures lower { result.lower ≡ lower }
        ensures detects { Detects }
    {
        Seal { lower }
    }

    // The store below, as it is now.
    pub fn into_lower(self) -> S
        ensures { result ≡ self.lower }
    {
        self.lower
    }
}

impl<S: PageStore> Seal<S> {
    // The length and the count of the sealed pages. No generic function over stores makes it, since its call here would lead back to this implementation.
    #[tactic(auto, using(crate::specs::Eaches::length_each))]
    fn shape(&self) -> Shape
        ensures len { result.len ≡ S.len self.now.lower - 4 }
        ensures count { result.count ≡ length (open_pages (S.len self.now.lower) (S.pages self.now.lower)) }
    {
        Shape {
            len: self.page_len(),
            count: self.page_count(),
        }
    }

    // Reads page p of the store below to the front of `page`, and checks its seal.
    #[tactic(auto, using(crate::specs::Opens::openings))]
    fn open_page(&self, p: usize, page: &mut [u8; 1024]) -> Result<(), StoreFault>
        requires { p < length (open_pages (S.len self.now.lower) (S.pages self.now.lower)) }
        ensures { Opens p (slice_index_or (open_pages (S.len self.now.lower) (S.pages self.now.lower)) p damaged) (S.len self.now.lower - 4) result page.new }
    {
        self.lower.read(p, page)?;
        if !agrees(p, &page[0..self.lower.page_len()]) {
            return Err(StoreFault::Damaged(p));
        }
        Ok(())
    }

    // Writes the bytes with their seal to page p of the store below.
    #[tactic(auto, using(crate::specs::Opens::sealings))]
    fn put_page(&mut self, p: usize, bytes: &[u8]) -> Result<(), StoreFault>
        requires there { p < length (open_pages (S.len self.old.lower) (S.pages self.old.lower)) }
        requires whole { length bytes.now ≡ S.len self.old.lower - 4 }
        ensures answer { result ≡ Ok tt }
        ensures len { S.len self.new.lower ≡ S.len self.old.lower }
        ensures pages { open_pages (S.len self.new.lower) (S.pages self.new.lower) ≡ slice_set (open_pages (S.len self.old.lower) (S.pages self.old.lower)) p (sound bytes.now) }
        ensures rest { S.rest self.new.lower ≡ S.rest self.old.lower }
    {
        let mut page = [0u8; 1024];
        let sealed = &mut page[0..bytes.len() + 4];
        PageData { number: p, bytes }.seal_into(sealed);
        self.lower.write(p, sealed)
    }
}

impl<S: PageStore> PageStore for Seal<S> {
    ghost len = { λ s. S.PageStore.len s.lower - 4 };

    ghost pages = { λ s. open_pages (S.PageStore.len s.lower) (S.PageStore.pages s.lower) };

    ghost rest = { λ s. S.PageStore.rest s.lower };

    ghost short = { λ s. short_opened (S.PageStore.len s.lower) (S.PageStore.short s.lower) };

    ghost few = { λ s. few_opened (S.PageStore.len s.lower) (S.PageStore.pages s.lower) (S.PageStore.few s.lower) };

    ghost sized = { λ s p b e. sized_opened (S.PageStore.len s.lower) (S.PageStore.pages s.lower) p b (S.PageStore.sized s.lower p) e };

    fn page_len(&self) -> usize {
        self.lower.page_len().saturating_sub(4)
    }

    // As many as below; none where those are shorter than a seal.
    #[tactic(auto, using(crate::specs::Eaches::length_each))]
    fn page_count(&self) -> usize {
        if self.lower.page_len() < 4 {
            return 0;
        }
        self.lower.page_count()
    }

    fn read(&self, p: usize, buf: &mut [u8]) -> Result<(), StoreFault> {
        let shape = self.shape();
        shape.readable(p, buf.len())?;
        let mut page = [0u8; 1024];
        self.open_page(p, &mut page)?;
        put_front(buf, &page[0..shape.len]);
        Ok(())
    }

    fn write(&mut self, p: usize, bytes: &[u8]) -> Result<(), StoreFault> {
        self.shape().writable(p, bytes.len())?;
        self.put_page(p, bytes)
    }
}
