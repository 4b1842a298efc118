ghost use Rattle.std.specs.Prelude.{◌≡◌, ℕ, List, ◌∷◌, ◌≢◌};
ghost use Rattle.codes.specs.Values.{Datum, Valid, Earlier, clean as clean_datum, spelled_in};
ghost use Rattle.codes.specs.Codes.{datum_code};
ghost use Rattle.codes.specs.Means.{datum_of};
ghost use Rattle.codes.specs.Reading.{Read};
ghost use Rattle.codes.specs.ReadValues.{ValueRead};
ghost use Rattle.codes.specs.Sources.{seen};
ghost use Rattle.codes.specs.Data.{datum_laws};

use crate::class::{Class, class_of};
use crate::code::ColumnCode;
use crate::code::null::Null;
use crate::code::number::reading::read_decimal;
use crate::source::Source;
use crate::stop::Stop;
use crate::unread::Unread;
use crate::value::{Text, Value};

// A value of any kind.
impl ColumnCode for Value {
    ghost Meaning = { Datum };

    ghost means = { datum_of };

    ghost Coded = { Valid };

    ghost clean = { clean_datum };

    ghost bytes = { datum_code };

    ghost less = { Earlier };

    ghost spelled = { spelled_in };

    ghost lawful = { datum_laws };

    fn size(&self, texts: &[u8]) -> Option<usize> {
        match *self {
            Value::Null => Null.size(texts),
            Value::Decimal(d) => d.size(texts),
            Value::Text(t) => t.size(texts),
        }
    }

    fn put(&self, texts: &[u8], out: &mut [u8]) -> Option<usize> {
        match *self {
            Value::Null => Null.put(texts, out),
            Value::Decimal(d) => d.put(texts, out),
            Value::Text(t) => t.put(texts, out),
        }
    }

    fn read(source: Source, texts: &mut [u8]) -> Result<(Value, usize), Unread> {
        let (first, _) = source.split().ok_or(Stop { at: 0 })?;
        match class_of(first) {
            Class::Foreign => Err(Unread::NoCode(Stop { at: 0 })),
            Class::Null => Ok((Value::Null, 1)),
            Class::Text => read_text(source, texts),
            _ => read_number(source),
        }
    }
}

// A text, as a value.
fn read_text(source: Source, texts: &mut [u8]) -> Result<(Value, usize), Unread>
    ensures { (xs : List ℕ) → seen source.entry ≡ 0x24 ∷ xs → Read Valid datum_code datum_of spelled_in (seen source.entry) texts.old texts.new result }
{
    let (text, n) = Text::read(source, texts)?;
    Ok((Value::Text(text), n))
}

// A decimal, as a value.
fn read_number(source: Source) -> Result<(Value, usize), Unread>
    ensures { (x : ℕ) (xs : List ℕ) → seen source.entry ≡ x ∷ xs → (x ≢ 0x05) → (x ≢ 0x24) → ValueRead (seen source.entry) result }
{
    let (decimal, n) = read_decimal(source)?;
    Ok((Value::Decimal(decimal), n))
}
