ghost use Rattle.std.specs.Prelude.{◌≤◌, length};
ghost use Rattle.inline.specs.Listed.{listed};

use crate::direction::Direction;
use inline::Inline;

mod making;

// The directions of the 1 to 8 columns of a record.
#[derive(Clone, Copy)]
pub struct Plan {
    pub(crate) columns: Inline<Direction, 8>,
    ghost some: { 1 ≤ length (listed columns) },
}
