ghost use Rattle.std.specs.Prelude.{◌+◌, ◌≤◌, length};

mod reading;

// What is left to read of a key, and how many of its bytes were read before: at most 120 together.
#[derive(Clone, Copy)]
pub(crate) struct KeyReader<'a> {
    rest: &'a [u8],
    at: usize,
    ghost short: { at + length rest.now ≤ 120 },
}
