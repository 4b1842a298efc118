ghost use Rattle.std.specs.Prelude.{◌<◌};

// The numbers in the fields of a header page, each within its bits, before any of them is judged.
#[derive(Clone, Copy)]
pub(crate) struct Fields {
    pub(crate) mark: u16,
    pub(crate) version: u8,
    pub(crate) edit: u8,
    pub(crate) pages: u16,
    pub(crate) page_len: u16,
    pub(crate) levels: u8,
    pub(crate) columns: u8,
    pub(crate) directions: u8,
    pub(crate) root: u16,
    pub(crate) first_free: u16,
    pub(crate) free_pages: u16,
    pub(crate) rows: u32,
    pub(crate) zero: u8,
    ghost mark_fits: { mark < 4096 },
    ghost version_fits: { version < 8 },
    ghost edit_fits: { edit < 2 },
    ghost page_len_fits: { page_len < 2048 },
    ghost levels_fit: { levels < 8 },
    ghost columns_fit: { columns < 16 },
    ghost zero_fits: { zero < 64 },
}
