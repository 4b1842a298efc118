ghost use Rattle.std.specs.Prelude.{◌≡◌, ◌+◌, ◌*◌, ◌<◌, ◌≤◌, ◌++◌, length, vec_len, slice_index_or, slice_set};
ghost use Rattle.refusals.specs.Answer.{answer};
ghost use Rattle.stores.specs.Pages.{sound, damaged};
ghost use Rattle.stores.specs.Faults.{store_told};
ghost use Rattle.stores.specs.Areas.{allowed, cut, joined, length_answer, kept_len, kept_count};
ghost use Rattle.stores.specs.ImageOf.{image_len, image_count, image_pages, image_area, image_rest};
ghost use Rattle.stores.specs.Images.{image_short, image_few, image_sized};

use crate::fault::StoreFault;
use crate::front::put_front;
use crate::image_area::Image;
use crate::shape::{Shape, is_page_len};
use crate::store::PageStore;

impl Image {
    // Tells before the making whether an image can have pages of this length.
    pub fn check(page_len: usize) -> Result<(), StoreFault>
        ensures { answer store_told result ≡ length_answer page_len }
    {
        if !is_page_len(page_len) {
            return Err(StoreFault::PageLength);
        }
        Ok(())
    }

    // The area as pages of this length; without any, of length 0, where the length is not allowed.
    pub fn new(area: Vec<u8>, page_len: usize) -> Image
        ensures len { image_len result ≡ kept_len page_len }
        ensures count { image_count result ≡ kept_count page_len (vec_len area) }
        ensures pages { image_pages result ≡ cut (kept_len page_len) (kept_count page_len (vec_len area)) area.items }
        ensures area { image_area result ≡ area.items }
    {
        let shape = Shape::of_area(area.len(), page_len);
        Image { area, shape }
    }

    // The area as it is now: the pages in their order, and behind them what no call touched.
    #[tactic(auto, using(crate::specs::Cuts::parted))]
    pub fn into_area(self) -> Vec<u8>
        ensures area { result.items ≡ image_area self }
        ensures parts { result.items ≡ joined (image_pages self) ++ image_rest self }
    {
        let Image { area, .. } = self;
        area
    }

    // The bytes of page p.
    #[tactic(auto, using(crate::specs::Cuts::length_cut, crate::specs::Cuts::get_or_cut))]
    fn page(&self, p: usize) -> &[u8]
        requires { p < length (image_pages self.now) }
        ensures page { slice_index_or (image_pages self.now) p damaged ≡ sound result.now }
        ensures sized { length result.now ≡ image_len self.now }
    {
        &self.area[self.shape.place(p)]
    }

    // Puts the bytes in place of page p.
    #[tactic(auto, using(crate::specs::Cuts::puts))]
    fn put_page(&mut self, p: usize, bytes: &[u8])
        requires there { p < length (image_pages self.old) }
        requires whole { length bytes.now ≡ image_len self.old }
        ensures len { image_len self.new ≡ image_len self.old }
        ensures pages { image_pages self.new ≡ slice_set (image_pages self.old) p (sound bytes.now) }
        ensures rest { image_rest self.new ≡ image_rest self.old }
    {
        let place = self.shape.place(p);
        self.area[place].copy_from_slice(bytes);
    }
}

impl PageStore for Image {
    ghost len = { image_len };

    ghost pages = { image_pages };

    ghost rest = { image_rest };

    ghost short = { image_short };

    ghost few = { image_few };

    ghost sized = { image_sized };

    fn page_len(&self) -> usize {
        self.shape.len
    }

    #[tactic(auto, using(crate::specs::Cuts::length_cut))]
    fn page_count(&self) -> usize {
        self.shape.count
    }

    #[tactic(auto, using(crate::specs::Cuts::length_cut))]
    fn read(&self, p: usize, buf: &mut [u8]) -> Result<(), StoreFault> {
        self.shape.readable(p, buf.len())?;
        put_front(buf, self.page(p));
        Ok(())
    }

    #[tactic(auto, using(crate::specs::Cuts::length_cut))]
    fn write(&mut self, p: usize, bytes: &[u8]) -> Result<(), StoreFault> {
        self.shape.writable(p, bytes.len())?;
        self.put_page(p, bytes);
        Ok(())
    }
}
