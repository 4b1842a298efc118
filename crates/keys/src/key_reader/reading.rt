ghost use Rattle.std.specs.Prelude.{◌≡◌, ◌+◌, ◌<◌, ◌≤◌, length, drop, IfOk, IfErr, OnErr};
ghost use Rattle.keys.specs.Reading.{ColumnTaken, Ended, FoundAt, Walked, Whole};

use crate::direction::Direction;
use crate::key::MAX_KEY;
use crate::key_reader::KeyReader;
use codes::{KeyFault, Source, Stop, Unread, Value};

impl<'a> KeyReader<'a> {
    // All of these bytes; refused by 6 with byte 120 if they are more.
    pub(crate) fn new(bytes: &'a [u8]) -> Result<KeyReader<'a>, KeyFault>
        ensures all { IfOk result (λ all. all.rest.now ≡ bytes.now) }
        ensures front { IfOk result (λ all. all.at ≡ 0) }
        ensures fault { IfErr result (λ f. f ≡ KeyFault.ReadLength) }
        ensures long { OnErr result (120 < length bytes.now) }
    {
        if bytes.len() > MAX_KEY {
            return Err(KeyFault::ReadLength);
        }
        Ok(KeyReader { rest: bytes, at: 0 })
    }

    // What is left behind `n` bytes.
    fn behind(self, n: usize) -> KeyReader<'a>
        requires { n ≤ length self.rest.now }
        ensures rest { result.rest.now ≡ drop n self.entry.rest.now }
        ensures at { result.at ≡ self.entry.at + n }
    {
        KeyReader {
            rest: &self.rest[n..],
            at: self.at + n,
        }
    }

    // The next column, with a text's bytes at the front of the lent ones, and what is left behind it; or where it stops.
    // The hints here and at `walk` spare copying each value where only its length is wanted.
    #[inline(always)]
    fn column(
        self,
        direction: Direction,
        texts: &mut [u8; MAX_KEY],
    ) -> Result<(Value, KeyReader<'a>), Stop>
        ensures { ColumnTaken direction self.entry texts.new result }
    {
        match direction.read(Source::new(self.rest), texts) {
            Ok((value, len)) => Ok((value, self.behind(len))),
            Err(Unread::NoCode(stop)) => Err(stop.behind(self.at)),
            Err(Unread::NoRoom) => unreachable(),
        }
    }

    // What is left behind the next columns, or where they stop.
    #[inline(always)]
    fn walk(self, directions: &[Direction]) -> Result<KeyReader<'a>, Stop>
        ensures { Walked directions.now self.entry result }
    {
        let mut texts = [0u8; MAX_KEY];
        let mut reader = self;
        for direction in directions {
            (_, reader) = reader.column(*direction, &mut texts)?;
        }
        Ok(reader)
    }

    // Whether nothing is left.
    fn end(self) -> Result<(), Stop>
        ensures { Ended self.entry result }
    {
        if !self.rest.is_empty() {
            return Err(Stop { at: self.at });
        }
        Ok(())
    }

    // Whether these columns take all that is left, or where it is no key.
    pub(crate) fn check(self, directions: &[Direction]) -> Result<(), Stop>
        requires { self.at ≡ 0 }
        ensures { Whole directions.now self.entry.rest.now result }
    {
        self.walk(directions)?.end()
    }

    // Column `wanted`, counted from 0, of a key of these columns, with a text's bytes at the front of the lent ones; or where it is no key.
    pub(crate) fn read_at(
        self,
        directions: &[Direction],
        wanted: usize,
        texts: &mut [u8; MAX_KEY],
    ) -> Result<Value, Stop>
        requires front { self.at ≡ 0 }
        requires column { wanted < length directions.now }
        ensures { FoundAt directions.now self.entry.rest.now wanted texts.new result }
    {
        let before = self.walk(&directions[..wanted])?;
        let (value, behind) = before.column(directions[wanted], texts)?;
        behind.walk(&directions[wanted + 1..])?.end()?;
        Ok(value)
    }
}
