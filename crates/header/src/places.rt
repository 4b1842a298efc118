// The first bit of each field, counted from 0 over the page, high bits first: a field reaches to the next one's.
pub(crate) const MARK: usize = 0;

pub(crate) const VERSION: usize = MARK + 12;

pub(crate) const EDIT: usize = VERSION + 3;

pub(crate) const PAGES: usize = EDIT + 1;

pub(crate) const PAGE_LEN: usize = PAGES + 16;

pub(crate) const LEVELS: usize = PAGE_LEN + 11;

pub(crate) const COLUMNS: usize = LEVELS + 3;

pub(crate) const DIRECTIONS: usize = COLUMNS + 4;

pub(crate) const ROOT: usize = DIRECTIONS + 8;

pub(crate) const FIRST_FREE: usize = ROOT + 16;

pub(crate) const FREE_PAGES: usize = FIRST_FREE + 16;

pub(crate) const ROWS: usize = FREE_PAGES + 16;

pub(crate) const ZEROS: usize = ROWS + 32;

pub(crate) const END: usize = ZEROS + 6;

// The bytes of all fields together.
pub(crate) const HEADER_LEN: usize = END / 8;

// What the mark and the version are.
pub(crate) const KIND: u16 = 2652;

pub(crate) const LAYOUT: u8 = 1;
