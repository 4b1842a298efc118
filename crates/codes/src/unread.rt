ghost use Rattle.std.specs.Prelude.{◌≡◌};
ghost use Rattle.codes.specs.declared.unread.Unread.TheVariants.{NoCode};

use crate::stop::Stop;

// Why no value was read from the front of some bytes.
#[derive(Clone, Copy, PartialEq, Eq, Debug)]
pub enum Unread {
    // they start with no code
    NoCode(Stop),
    // a text is longer than the bytes that were lent for it
    NoRoom,
}

impl From<Stop> for Unread {
    ghost from_gives = { λ s r. r ≡ NoCode s };

    fn from(stop: Stop) -> Unread {
        Unread::NoCode(stop)
    }
}
