ghost use Rattle.std.specs.Prelude.{◌≡◌, ◌≤◌, length};
ghost use Rattle.refusals.specs.Answer.{answer_as};
ghost use Rattle.keys.specs.Making.{plan_answer};
ghost use Rattle.keys.specs.Means.{directions_of};
ghost use Rattle.codes.specs.Refusals.{key_told};

use crate::direction::Direction;
use crate::plan::Plan;
use codes::KeyFault;
use inline::Inline;

impl Plan {
    // The plan with these columns; refused by 5 if they are not 1 to 8.
    pub fn new(columns: &[Direction]) -> Result<Plan, KeyFault>
        ensures { answer_as directions_of key_told result ≡ plan_answer columns.now }
    {
        if columns.is_empty() {
            return Err(KeyFault::Columns);
        }
        let columns = Inline::from_slice(columns).ok_or(KeyFault::Columns)?;
        Ok(Plan { columns })
    }

    // The directions of its columns, the first column's first.
    pub fn directions(&self) -> &[Direction]
        ensures value { result.now ≡ directions_of self.now }
        ensures some { 1 ≤ length result.now }
        ensures few { length result.now ≤ 8 }
    {
        self.columns.as_slice()
    }
}
