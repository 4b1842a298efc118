ghost use Rattle.codes.specs.Laws.{Put};
ghost use Rattle.codes.specs.Means.{datum_of};
ghost use Rattle.codes.specs.Reading.{Read};
ghost use Rattle.codes.specs.Sources.{seen};
ghost use Rattle.codes.specs.Values.{Valid, spelled_in};
ghost use Rattle.keys.specs.Records.{code_in};

use codes::{ColumnCode, Descending, Source, Unread, Value};

// The order of a column.
#[derive(Clone, Copy, Default, PartialEq, Eq, Debug)]
pub enum Direction {
    #[default]
    Ascending,
    Descending,
}

// One match each: the two codes are those of two types, and a closure for each type would be no plainer.
impl Direction {
    // Writes a value's code in such a column to the front of the output.
    pub(crate) fn put(self, value: Value, texts: &[u8], out: &mut [u8]) -> Option<usize>
        ensures { Put (code_in self (datum_of value texts.now)) out.old out.new result }
    {
        match self {
            Direction::Ascending => value.put(texts, out),
            Direction::Descending => Descending(value).put(texts, out),
        }
    }

    // Reads a value from such a column at the front of some bytes.
    pub(crate) fn read(self, source: Source, texts: &mut [u8]) -> Result<(Value, usize), Unread>
        ensures { Read Valid (code_in self) datum_of spelled_in (seen source.entry) texts.old texts.new result }
    {
        match self {
            Direction::Ascending => Value::read(source, texts),
            Direction::Descending => {
                let (Descending(value), len) = Descending::<Value>::read(source, texts)?;
                Ok((value, len))
            }
        }
    }
}
