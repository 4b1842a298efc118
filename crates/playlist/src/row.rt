use keys::{MAX_KEY, Plan, Record, Value, write_key};
use std::alloc::{AllocError, Global};
use words::{WordFault, push_hex, push_value, read_value};

// The values of a record, with the bytes of their texts.
#[derive(Drop)]
pub struct Row {
    values: Vec<Value>,
    texts: Vec<u8>,
}

impl Row {
    // The row whose values these words write.
    pub fn read(heap: Global, words: &[&[u8]]) -> Result<Row, WordFault> {
        let mut values = Vec::new(heap);
        let mut texts = Vec::new(heap);
        for word in words {
            values.push(read_value(heap, *word, &mut texts)?)?;
        }
        Ok(Row { values, texts })
    }

    // Its key under a plan.
    pub fn key(&self, heap: Global, plan: &Plan) -> Result<Vec<u8>, WordFault> {
        let record = Record {
            values: self.values.as_slice(),
            texts: self.texts.as_slice(),
        };
        let mut key = [0u8; MAX_KEY];
        let len = write_key(plan, record, &mut key)?;
        Ok(Vec::from_slice(heap, &key[0..len])?)
    }

    // Adds each value behind a space.
    pub fn push(&self, out: &mut Vec<u8>) -> Result<(), AllocError> {
        for value in self.values.as_slice() {
            out.push(b' ')?;
            push_value(*out.allocator(), out, *value, self.texts.as_slice())?;
        }
        Ok(())
    }
}
