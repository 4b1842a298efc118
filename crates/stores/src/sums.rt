ghost use Rattle.std.specs.Prelude.{◌≡◌, ◌+◌, ◌-◌, ◌<◌, ◌≤◌, ◌++◌, length, sum, slice_index};
ghost use Rattle.stores.specs.Sums.{weighed, check_a, check_b, pair_of, quad, seal_of, agrees_at};

use crate::page_data::PageData;

// The two sums that seal a page.
#[derive(Clone, Copy, PartialEq, Eq)]
struct Sums {
    plain: u16,
    places: u16,
}

impl Sums {
    // The four bytes that stand behind the data, high bytes first.
    fn to_bytes(self) -> [u8; 4]
        ensures { result ≡ quad self.plain self.places }
    {
        let plain = self.plain.to_be_bytes();
        let places = self.places.to_be_bytes();
        [plain[0], plain[1], places[0], places[1]]
    }

    // The sums that the four bytes hold.
    fn from_bytes(seal: &[u8]) -> Sums
        requires { length seal.now ≡ 4 }
        ensures plain { result.plain ≡ pair_of (slice_index seal.now 0) (slice_index seal.now 1) }
        ensures places { result.places ≡ pair_of (slice_index seal.now 2) (slice_index seal.now 3) }
    {
        Sums {
            plain: u16::from_be_bytes([seal[0], seal[1]]),
            places: u16::from_be_bytes([seal[2], seal[3]]),
        }
    }
}

impl PageData<'_> {
    // The page number and all bytes together, and the bytes each times its place, from 1 on.
    // The form of this loop is fixed: a counter beside the bytes, sums of 64 bits, and no division.
    #[tactic(auto, using(crate::proofs::Totals::running_totals))]
    fn running(self) -> (u64, u64)
        ensures plain { result.0 ≡ self.entry.number + sum self.entry.bytes.now }
        ensures places { result.1 ≡ weighed 1 self.entry.bytes.now }
    {
        // `usize` has no `From` into `u64`.
        let mut plain = self.number as u64;
        let mut places: u64 = 0;
        let mut place: u64 = 1;
        for byte in self.bytes {
            let byte = u64::from(*byte);
            plain += byte;
            places += place * byte;
            place += 1;
        }
        (plain, places)
    }

    // Both sums as a page keeps them; `as` loses nothing of a remainder by 65,535, and no `From` leads there.
    fn sums(self) -> Sums
        ensures plain { result.plain ≡ check_a self.entry.number self.entry.bytes.now }
        ensures places { result.places ≡ check_b self.entry.bytes.now }
    {
        let (plain, places) = self.running();
        Sums {
            plain: (plain % 65535) as u16,
            places: (places % 65535) as u16,
        }
    }

    // Fills a page with the data bytes and the seal behind them.
    pub(crate) fn seal_into(self, page: &mut [u8])
        requires { length page.old ≡ length self.bytes.now + 4 }
        ensures { page.new ≡ self.entry.bytes.now ++ seal_of self.entry.number self.entry.bytes.now }
    {
        let (front, back) = page.split_at_mut(self.bytes.len());
        front.copy_from_slice(self.bytes);
        back.copy_from_slice(&self.sums().to_bytes());
    }
}

// Whether the four bytes at the end of page p are the seal of those before.
pub(crate) fn agrees(p: usize, page: &[u8]) -> bool
    requires low { p < 65535 }
    requires long { 4 ≤ length page.now }
    requires short { length page.now ≤ 1024 }
    ensures { result ≡ agrees_at (length page.now - 4) p page.now }
{
    let (bytes, seal) = page.split_at(page.len() - 4);
    Sums::from_bytes(seal) == PageData { number: p, bytes }.sums()
}
