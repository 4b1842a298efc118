ghost use Rattle.refusals.specs.Answer.{answer};
ghost use Rattle.codes.specs.Means.{datum_of};
ghost use Rattle.codes.specs.Refusals.{key_told};
ghost use Rattle.keys.specs.Means.{directions_of};
ghost use Rattle.keys.specs.Reading.{Checked, ColumnRead, HandedOut, OnePlace, RoundTrip};

use crate::key::MAX_KEY;
use crate::key_reader::KeyReader;
use crate::plan::Plan;
use codes::{KeyFault, Text, Value};

// Whether some bytes are a key of the plan. Refused by 6 with byte 120, unread, and by 7 with the first byte at which no key goes on, or with their number.
#[tactic(auto, using(crate::proofs::Walks::one_place, crate::proofs::Walks::round_trip))]
pub fn check_key(plan: &Plan, bytes: &[u8]) -> Result<(), KeyFault>
    ensures answer { Checked (directions_of plan.now) bytes.now (answer key_told result) }
    ensures place { OnePlace (directions_of plan.now) }
    ensures round { RoundTrip (directions_of plan.now) }
{
    KeyReader::new(bytes)?.check(plan.directions())?;
    Ok(())
}

// Reads column `column`, counted from 1, of a key. Refused by 5, by 6 with byte 120, by 7 over the whole key, and by 8; a text's bytes go to the front of the output.
pub fn read_column(
    plan: &Plan,
    bytes: &[u8],
    column: usize,
    out: &mut [u8],
) -> Result<Value, KeyFault>
    ensures { ColumnRead (directions_of plan.now) bytes.now column out.old out.new (answer key_told result) }
{
    let directions = plan.directions();
    if column < 1 || column > directions.len() {
        return Err(KeyFault::Columns);
    }
    let mut texts = [0u8; MAX_KEY];
    let value = KeyReader::new(bytes)?.read_at(directions, column - 1, &mut texts)?;
    hand_out(value, &texts, out)
}

// Gives a value out, with a text's bytes moved from the lent ones to the front of the output. Refused by 8.
fn hand_out(value: Value, texts: &[u8], out: &mut [u8]) -> Result<Value, KeyFault>
    ensures { HandedOut (datum_of value texts.now) out.old out.new result }
{
    match value {
        Value::Text(text) => {
            let len = text.put_bytes(texts, out).ok_or(KeyFault::Room)?;
            Ok(Value::Text(Text { start: 0, len }))
        }
        Value::Null | Value::Decimal(_) => Ok(value),
    }
}
