ghost use Rattle.std.specs.Prelude.{◌≡◌, ℕ, ◌≤◌, List, length, slice_index_or};
ghost use Rattle.refusals.specs.Answer.{answer};
ghost use Rattle.stores.specs.Pages.{Page, sound, damaged};
ghost use Rattle.stores.specs.Faults.{store_told};
ghost use Rattle.stores.specs.Calls.{read_answer, read_buffer, write_answer, write_pages};

use crate::fault::StoreFault;

// A row of pages of one length, read and written whole by their numbers.
pub trait PageStore {
    // The length of every page.
    ghost len: { Self → ℕ };

    // Each page: its bytes, or damaged.
    ghost pages: { Self → List Page };

    // The bytes behind the last page, which no call touches.
    ghost rest: { Self → List ℕ };

    fn page_len(&self) -> usize
        ensures { result ≡ len self.now };

    fn page_count(&self) -> usize
        ensures { result ≡ length (pages self.now) };

    // Copies page p to the front of the buffer.
    fn read(&self, p: usize, buf: &mut [u8]) -> Result<(), StoreFault>
        ensures answer { answer store_told result ≡ read_answer (len self.now) (pages self.now) p (length buf.old) }
        ensures buffer { buf.new ≡ read_buffer (len self.now) (pages self.now) p buf.old };

    // Replaces page p by the bytes.
    fn write(&mut self, p: usize, bytes: &[u8]) -> Result<(), StoreFault>
        ensures answer { answer store_told result ≡ write_answer (len self.old) (pages self.old) p (length bytes.now) }
        ensures len { len self.new ≡ len self.old }
        ensures pages { pages self.new ≡ write_pages (len self.old) (pages self.old) p bytes.now }
        ensures rest { rest self.new ≡ rest self.old };

    ghost short: { (s : Self) → len s ≤ 1024 };

    ghost few: { (s : Self) → length (pages s) ≤ 65535 };

    ghost sized: { (s : Self) (p : ℕ) (b : List ℕ) → slice_index_or (pages s) p damaged ≡ sound b → length b ≡ len s };
}
