ghost use Rattle.std.specs.Prelude.{◌≡◌, ◌+◌, ◌*◌, ◌<◌, ◌≤◌, ◌==◌, nat_le};
ghost use Rattle.stores.specs.Areas.{allowed, kept_len, kept_count};
ghost use Rattle.stores.specs.Checks.{check_answer};

use crate::fault::StoreFault;
use std::ops::Range;

// Pages of one length: how long each of them is, and how many there are.
#[derive(Clone, Copy)]
pub(crate) struct Shape {
    pub(crate) len: usize,
    pub(crate) count: usize,
    ghost short: { len ≤ 1024 },
    ghost few: { count ≤ 65535 },
}

impl Shape {
    // How an area of so many bytes is cut into pages of this length.
    pub(crate) fn of_area(bytes: usize, page_len: usize) -> Shape
        ensures len { result.len ≡ kept_len page_len }
        ensures count { result.count ≡ kept_count page_len bytes }
        ensures within { result.count * result.len ≤ bytes }
    {
        if is_page_len(page_len) {
            Shape {
                len: page_len,
                count: (bytes / page_len).min(65535),
            }
        } else {
            Shape { len: 0, count: 0 }
        }
    }

    // Where page p lies in an area of these pages. That the page is there stands here and where it is read and written: it ties a number to a store, which the type of neither can say.
    pub(crate) fn place(self, p: usize) -> Range<usize>
        requires { p < self.count }
        ensures start { result.start ≡ p * self.len }
        ensures end { result.end ≡ p * self.len + self.len }
    {
        let start = p * self.len;
        start..start + self.len
    }

    // Whether page p can be read into a buffer of so many bytes.
    pub(crate) fn readable(self, p: usize, room: usize) -> Result<(), StoreFault>
        ensures { result ≡ check_answer self.count p (nat_le self.len room) }
    {
        self.check(p, room >= self.len)
    }

    // Whether so many bytes can be written to page p.
    pub(crate) fn writable(self, p: usize, bytes: usize) -> Result<(), StoreFault>
        ensures { result ≡ check_answer self.count p (bytes == self.len) }
    {
        self.check(p, bytes == self.len)
    }

    // Whether page p is there, and then whether the length of the bytes for it fits.
    fn check(self, p: usize, fits: bool) -> Result<(), StoreFault>
        ensures { result ≡ check_answer self.count p fits }
    {
        if p >= self.count {
            return Err(StoreFault::NoSuchPage(p));
        }
        if !fits {
            return Err(StoreFault::WrongLength);
        }
        Ok(())
    }
}

// Whether an image can have pages of this length.
pub(crate) fn is_page_len(page_len: usize) -> bool
    ensures { result ≡ allowed page_len }
{
    (1..=1024).contains(&page_len)
}
