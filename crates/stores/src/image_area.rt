ghost use Rattle.std.specs.Prelude.{◌*◌, ◌≤◌, vec_len};

use crate::shape::Shape;

// Pages that lie one behind the other in an area of bytes.
#[derive(Drop)]
pub struct Image {
    pub(crate) area: Vec<u8>,
    pub(crate) shape: Shape,
    ghost within: { shape.count * shape.len ≤ vec_len area },
}
