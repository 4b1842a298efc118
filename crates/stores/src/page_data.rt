ghost use Rattle.std.specs.Prelude.{◌<◌, ◌≤◌, length};

// The data bytes of a page, with its number.
#[derive(Clone, Copy)]
pub(crate) struct PageData<'a> {
    pub(crate) number: usize,
    pub(crate) bytes: &'a [u8],
    ghost low: { number < 65535 },
    ghost short: { length bytes.now ≤ 1024 },
}
