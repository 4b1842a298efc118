ghost use Rattle.codes.specs.Strings.{flipped};
ghost use Rattle.codes.specs.Orders.{descending};

use crate::code::{ColumnCode, complement};
use crate::source::Source;
use crate::unread::Unread;

// A value in a column that descends: its code is complemented whole.
#[derive(Clone, Copy)]
pub struct Descending<V>(pub V);

impl<V: ColumnCode> ColumnCode for Descending<V> {
    ghost Meaning = { V.ColumnCode.Meaning };

    ghost means = { λ d. V.ColumnCode.means d.0 };

    ghost Coded = { V.ColumnCode.Coded };

    ghost clean = { V.ColumnCode.clean };

    ghost bytes = { λ m. flipped (V.ColumnCode.bytes m) };

    ghost less = { λ m n. V.ColumnCode.less n m };

    ghost spelled = { V.ColumnCode.spelled };

    ghost lawful = { descending V.ColumnCode.lawful };

    fn size(&self, texts: &[u8]) -> Option<usize> {
        self.0.size(texts)
    }

    fn put(&self, texts: &[u8], out: &mut [u8]) -> Option<usize> {
        let n = self.0.put(texts, out)?;
        complement(&mut out[0..n]);
        Some(n)
    }

    fn read(source: Source, texts: &mut [u8]) -> Result<(Descending<V>, usize), Unread> {
        let (value, n) = V::read(source.turned(), texts)?;
        Ok((Descending(value), n))
    }
}
