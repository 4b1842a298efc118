use crate::row::Row;
use keys::{KeyFault, Plan};
use std::alloc::{AllocError, Global};
use words::{WordFault, push_hex, split};

// A row of a day: its key, which orders it, and its values as they are printed.
#[derive(Drop)]
#[derive_where(PartialEq, Eq, PartialOrd, Ord)]
pub struct Aired {
    key: Vec<u8>,
    #[derive_where(skip)]
    shown: Vec<u8>,
}

// The rows of a day so far.
#[derive(Drop)]
pub struct Day {
    plan: Result<Plan, KeyFault>,
    rows: Vec<Aired>,
}

impl Day {
    pub fn new(heap: Global, plan: Result<Plan, KeyFault>) -> Day {
        Day {
            plan,
            rows: Vec::new(heap),
        }
    }

    // Adds the row that a line gives.
    pub fn add(&mut self, heap: Global, line: &[u8]) -> Result<(), WordFault> {
        let words = split(heap, line)?;
        let plan = self.plan?;
        let row = Row::read(heap, words.as_slice())?;
        let key = row.key(heap, &plan)?;
        let mut shown = Vec::new(heap);
        row.push(&mut shown)?;
        self.rows.push(Aired { key, shown })?;
        Ok(())
    }

    // Adds the rows in the order of their keys, each once, and tells their number.
    pub fn push_rows(self, out: &mut Vec<u8>) -> Result<usize, AllocError> {
        let mut rows = self.rows;
        rows.sort_unstable();
        rows.dedup();
        for row in rows.iter() {
            out.extend_from_slice(b"row ")?;
            push_hex(out, row.key.as_slice())?;
            out.extend_from_slice(row.shown.as_slice())?;
            out.push(b'\n')?;
        }
        Ok(rows.len())
    }
}
