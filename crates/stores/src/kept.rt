ghost use Rattle.std.specs.Prelude.{◌≡◌, length};
ghost use Rattle.refusals.specs.Answer.{answer};
ghost use Rattle.stores.specs.Faults.{store_told};
ghost use Rattle.stores.specs.Keeping.{keep_answer, Keeps};

use crate::fault::StoreFault;
use crate::shape::Shape;
use crate::store::PageStore;

// Writes page p and reads it back: the buffer then holds what was written, and no other page has changed.
pub fn write_and_read<S: PageStore>(
    store: &mut S,
    p: usize,
    bytes: &[u8],
    buf: &mut [u8],
) -> Result<(), StoreFault>
    ensures answer { answer store_told result ≡ keep_answer (S.len store.old) (S.pages store.old) p (length bytes.now) (length buf.old) }
    ensures keeps { Keeps result p bytes.now (S.pages store.old) (S.pages store.new) buf.old buf.new }
    ensures len { S.len store.new ≡ S.len store.old }
    ensures count { length (S.pages store.new) ≡ length (S.pages store.old) }
    ensures rest { S.rest store.new ≡ S.rest store.old }
{
    let shape = Shape {
        len: store.page_len(),
        count: store.page_count(),
    };
    shape.readable(p, buf.len())?;
    store.write(p, bytes)?;
    store.read(p, buf)
}
