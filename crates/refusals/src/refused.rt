use inline::Inline;

// A refusal as it is reported: its number, and the values that stand beside it, in their order. A fault itself is a case of its layer's enum.
#[derive(Clone, Copy)]
pub struct Refused {
    pub(crate) number: u8,
    pub(crate) beside: Inline<usize, 4>,
}
