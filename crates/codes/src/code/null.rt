ghost use Rattle.std.specs.Prelude.{true, []};
ghost use Rattle.codes.specs.Codes.{null_code};
ghost use Rattle.codes.specs.Nulls.{null_laws};

use crate::code::{ColumnCode, put_front};
use crate::source::Source;
use crate::stop::Stop;
use crate::unread::Unread;

// The value of a column that has none.
#[derive(Clone, Copy)]
pub struct Null;

impl ColumnCode for Null {
    ghost Meaning = { Unit {0} };

    ghost means = { λ _ _. tt };

    ghost Coded = { λ _. Unit {0} };

    ghost clean = { λ _. true };

    ghost bytes = { λ _. null_code };

    ghost less = { λ _ _. ⊥ };

    ghost spelled = { λ _. [] };

    ghost lawful = { null_laws };

    fn size(&self, _texts: &[u8]) -> Option<usize> {
        Some(1)
    }

    fn put(&self, _texts: &[u8], out: &mut [u8]) -> Option<usize> {
        put_front(&[0x05], out)
    }

    fn read(source: Source, _texts: &mut [u8]) -> Result<(Null, usize), Unread> {
        match source.split() {
            Some((0x05, _)) => Ok((Null, 1)),
            _ => Err(Unread::NoCode(Stop { at: 0 })),
        }
    }
}
