use keys::{MAX_KEY, Plan, check_key, read_column};
use std::alloc::Global;
use words::{WordFault, push_value, read_hex, read_plan};

// The bytes of a key, and the plan under which they are read.
#[derive(Drop)]
pub struct Key {
    plan: Plan,
    bytes: Vec<u8>,
}

impl Key {
    // The key that a word of letters and a word of hexadecimal pairs write.
    pub fn read(heap: Global, plan: &[u8], pairs: &[u8]) -> Result<Key, WordFault> {
        let plan = read_plan(plan)?;
        let mut bytes = Vec::new(heap);
        read_hex(pairs, &mut bytes)?;
        Ok(Key { plan, bytes })
    }

    // Adds its values, each behind a space. Columns count from 1, and the number of each is what reading it takes.
    pub fn push_values(&self, shown: &mut Vec<u8>) -> Result<(), WordFault> {
        check_key(&self.plan, self.bytes.as_slice())?;
        for column in 1..=self.plan.directions().len() {
            self.push_value(shown, column, MAX_KEY)?;
        }
        Ok(())
    }

    // Adds the value of one column behind a space, read with an output of `room` bytes.
    pub fn push_value(
        &self,
        shown: &mut Vec<u8>,
        column: usize,
        room: usize,
    ) -> Result<(), WordFault> {
        let heap = *shown.allocator();
        let mut text = vec![in heap; 0u8; room]?;
        let value = read_column(
            &self.plan,
            self.bytes.as_slice(),
            column,
            text.as_mut_slice(),
        )?;
        shown.push(b' ')?;
        push_value(heap, shown, value, text.as_slice())?;
        Ok(())
    }
}
