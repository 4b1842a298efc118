use crate::key::Key;
use crate::row::Row;
use crate::store_command::StoreCommand;
use keys::{KeyFault, Plan};
use std::alloc::Global;
use words::{WordFault, read_number, read_plan, split};

// The largest number that a word of 9 digits writes.
pub const MAX_NUMBER: usize = 999_999_999;

// The most bytes of an output.
const MAX_ROOM: usize = 1_000_000;

// A command, with its words read.
#[derive(Drop)]
pub enum Command {
    // writes the key of a row
    Key(Plan, Row),
    // reads a key
    Read(Key),
    // reads a column of a key, with an output of so many bytes
    Column {
        key: Key,
        column: usize,
        room: usize,
    },
    // begins a day, whose rows answer for a plan that is refused
    Day(Result<Plan, KeyFault>),
    // works on a store
    Store(StoreCommand),
}

// The command that a line gives.
pub fn read_command(heap: Global, line: &[u8]) -> Result<Command, WordFault> {
    let words = split(heap, line)?;
    let [name, rest @ ..] = words.as_slice() else {
        return Err(WordFault::Form);
    };
    match (*name, rest) {
        (b"key", [plan, values @ ..]) if !values.is_empty() => {
            let plan = read_plan(*plan)?;
            Ok(Command::Key(plan, Row::read(heap, values)?))
        }
        (b"read", [plan, key]) => Ok(Command::Read(Key::read(heap, *plan, *key)?)),
        (b"column", [plan, key, column, room]) => {
            let key = Key::read(heap, *plan, *key)?;
            let column = read_number(*column, MAX_NUMBER)?;
            let room = read_number(*room, MAX_ROOM)?;
            Ok(Command::Column { key, column, room })
        }
        (b"day", [plan]) => Ok(Command::Day(read_plan(*plan))),
        (name, rest) => Ok(Command::Store(StoreCommand::read(heap, name, rest)?)),
    }
}
