// The sign of a decimal other than zero. Where it decides, it is matched: each place does another thing by it.
#[derive(Clone, Copy, PartialEq, Eq, Debug)]
pub enum Sign {
    Negative,
    Positive,
}
