ghost use Rattle.std.specs.Prelude.{◌≡◌, ◌∷◌, ◌++◌, MatchOption};
ghost use Rattle.words.specs.Lines.{Free};

// What stands before the first of these bytes that is `byte`, and what stands behind it, if there is one.
pub(crate) fn cut_at(bytes: &[u8], byte: u8) -> (&[u8], Option<&[u8]>)
    ensures before { Free byte result.0.now }
    ensures parts { MatchOption result.1 (bytes.now ≡ result.0.now) (λ behind. bytes.now ≡ result.0.now ++ byte ∷ behind.now) }
{
    match bytes.iter().position(|b| *b == byte) {
        Some(i) => (&bytes[..i], Some(&bytes[i + 1..])),
        None => (bytes, None),
    }
}
