ghost use Rattle.std.specs.Prelude.{◌≡◌};
ghost use Rattle.header.specs.Reading.{blank};

// Whether all bytes are 00.
pub(crate) fn is_blank(bytes: &[u8]) -> bool
    ensures { result ≡ blank bytes.now }
{
    bytes.iter().all(|b| *b == 0)
}
