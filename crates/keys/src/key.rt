ghost use Rattle.std.specs.Prelude.{◌≡◌, ◌≤◌, ◌++◌, length, drop, IfOk, MatchResult, OnOk};
ghost use Rattle.std.specs.List.{AllByRecursion};
ghost use Rattle.refusals.specs.Answer.{answer, refuses};
ghost use Rattle.codes.specs.Laws.{Put, counted};
ghost use Rattle.codes.specs.Values.{Valid};
ghost use Rattle.keys.specs.Means.{data_of, directions_of};
ghost use Rattle.codes.specs.Means.{datum_of};
ghost use Rattle.keys.specs.Records.{HasKey, IsRecord, KeyOrder, code_in, key};
ghost use Rattle.codes.specs.Refusals.{key_told};
ghost use Rattle.codes.specs.Worked.{WorkedKeys};
ghost use Rattle.keys.specs.Writing.{CodesLen, codes_length, columns_answer, key_answer, unless_zero, zero_column, write_answer, written_output};

use crate::direction::Direction;
use crate::plan::Plan;
use crate::row::Record;
use codes::{ColumnCode, Descending, KeyFault, Value};

// The most bytes that a key has.
pub const MAX_KEY: usize = 120;

// Writes a record's key to the front of the output and answers its length. Refused by 5, by 4 in each column from the left, by 6 and by 8, before any byte is written.
pub fn write_key(plan: &Plan, row: Record, out: &mut [u8]) -> Result<usize, KeyFault>
    ensures answer { answer key_told result ≡ write_answer (directions_of plan.now) (data_of row.entry) (length out.old) }
    ensures output { out.new ≡ written_output (directions_of plan.now) (data_of row.entry) out.old }
    ensures valid { IfOk result (λ n. HasKey (directions_of plan.now) (data_of row.entry) n) }
    ensures order { KeyOrder (directions_of plan.now) }
{
    let size = key_len(plan, row)?;
    if size > out.len() {
        return Err(KeyFault::Room);
    }
    put_columns(plan.directions(), row, out);
    Ok(size)
}

// The length of a record's key. Refused by 5, by 4 in each column from the left, and by 6.
#[tactic(auto, using(crate::proofs::Rows::key_order))]
pub fn key_len(plan: &Plan, row: Record) -> Result<usize, KeyFault>
    ensures answer { answer key_told result ≡ key_answer (directions_of plan.now) (data_of row.entry) }
    ensures valid { IfOk result (λ n. HasKey (directions_of plan.now) (data_of row.entry) n) }
    ensures order { KeyOrder (directions_of plan.now) }
    ensures worked { WorkedKeys }
{
    let size = codes_len(plan.directions(), row)?;
    if size > MAX_KEY {
        return Err(KeyFault::KeyLength);
    }
    Ok(size)
}

// The length of a record's codes, as far as a usize can tell it. Refused by 5 and by 4.
#[tactic(auto, using(crate::proofs::Measures::other_length, crate::proofs::Measures::same_length))]
fn codes_len(directions: &[Direction], row: Record) -> Result<usize, KeyFault>
    ensures { MatchResult result (λ n. CodesLen directions.now (data_of row.entry) n) (λ f. columns_answer directions.now (data_of row.entry) ≡ refuses (key_told f).0 (key_told f).1) }
{
    if row.values.len() != directions.len() {
        return Err(KeyFault::Columns);
    }
    values_len(row)
}

// The length of all values' codes, as far as a usize can tell it. Refused by 4 in each column from the left.
fn values_len(row: Record) -> Result<usize, KeyFault>
    ensures answer { answer key_told result ≡ unless_zero (zero_column 1 (data_of row.entry)) (counted (codes_length (data_of row.entry))) }
    ensures valid { OnOk result (AllByRecursion Valid (data_of row.entry)) }
{
    let mut size: usize = 0;
    for (i, value) in row.values.iter().enumerate() {
        let len = value.size(row.texts).ok_or(KeyFault::ZeroByte(i + 1))?;
        size = size.saturating_add(len);
    }
    Ok(size)
}

// Writes all columns' codes to the front of the output, which has room for them.
fn put_columns(directions: &[Direction], row: Record, out: &mut [u8])
    requires columns { IsRecord directions.now (data_of row) }
    requires room { length (key directions.now (data_of row)) ≤ length out.old }
    ensures { out.new ≡ key directions.now (data_of row.entry) ++ drop (length (key directions.now (data_of row.entry))) out.old }
{
    let mut at = 0;
    for (direction, value) in directions.iter().zip(row.values) {
        at += direction.put(*value, row.texts, &mut out[at..]).unwrap();
    }
}
