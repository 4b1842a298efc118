use header::{Header, HeaderFault, ShortPage, set_edit};
use keys::{Direction, Plan};
use std::process::Abort;
use std::test::Fail;

const NEW: [u8; 20] = [
    0xa5, 0xc2, 0x00, 0x30, 0x3c, 0x05, 0x00, 0x00, 0x00, 0x40, 0x00, 0x80, 0x0b, 0x80, 0x00, 0x00,
    0x00, 0x00, 0x00, 0x00,
];

const ONE_COLUMN: [u8; 18] = [
    0xa5, 0xc2, 0x00, 0x02, 0x7f, 0x84, 0x60, 0x00, 0x00, 0x40, 0x00, 0x00, 0x00, 0x00, 0x00, 0x00,
    0x01, 0xc0,
];

const LARGE: [u8; 22] = [
    0xa5, 0xc2, 0xff, 0xff, 0x80, 0x1e, 0x15, 0xff, 0xff, 0x80, 0x40, 0x80, 0x80, 0x40, 0x40, 0x80,
    0xc1, 0x00, 0x00, 0x00, 0x00, 0x00,
];

const UP: Direction = Direction::Ascending;

const DOWN: Direction = Direction::Descending;

fn new_index() -> Result<Header, Fail> {
    Ok(Header {
        edit_open: false,
        pages: 48,
        page_len: 480,
        levels: 1,
        plan: Plan::new(&[UP; 4])?,
        root: 1,
        first_free: 2,
        free_pages: 46,
        rows: 0,
    })
}

fn one_column() -> Result<Header, Fail> {
    Ok(Header {
        edit_open: false,
        pages: 2,
        page_len: 1020,
        levels: 1,
        plan: Plan::new(&[DOWN])?,
        root: 1,
        first_free: 0,
        free_pages: 0,
        rows: 7,
    })
}

fn large() -> Result<Header, Fail> {
    Ok(Header {
        edit_open: false,
        pages: 65535,
        page_len: 1024,
        levels: 7,
        plan: Plan::new(&[UP, DOWN, UP, DOWN, UP, DOWN, DOWN, DOWN])?,
        root: 65534,
        first_free: 258,
        free_pages: 513,
        rows: 16909060,
    })
}

#[test]
fn three_headers_written(rt: HostRuntime) -> Result<(), Fail> {
    let mut page = [7u8; 20];
    assert_eq!(rt; new_index()?.write(&mut page), Ok(()));
    assert_eq!(rt; page, NEW);
    let mut page = [7u8; 18];
    assert_eq!(rt; one_column()?.write(&mut page), Ok(()));
    assert_eq!(rt; page, ONE_COLUMN);
    let mut page = [7u8; 22];
    assert_eq!(rt; large()?.write(&mut page), Ok(()));
    assert_eq!(rt; page, LARGE);
    Ok(())
}

#[test]
fn a_page_too_short(rt: HostRuntime) -> Result<(), Fail> {
    let mut page = [7u8; 17];
    assert_eq!(rt; new_index()?.write(&mut page), Err(ShortPage));
    assert_eq!(rt; page, [7u8; 17]);
    assert_eq!(rt;
        Header::read(&page, 2, 17).err(),
        Some(HeaderFault::Field(0))
    );
    Ok(())
}

#[test]
fn a_header_read(rt: HostRuntime) -> Result<(), Fail> {
    let Ok(header) = Header::read(&LARGE, 65535, 1024) else {
        panic!(rt; "refused");
    };
    assert_eq!(rt; header.levels, 7);
    let directions = [UP, DOWN, UP, DOWN, UP, DOWN, DOWN, DOWN];
    assert_eq!(rt; header.plan.directions(), directions.as_slice());
    assert_eq!(rt; header.root, 65534);
    assert_eq!(rt; header.first_free, 258);
    assert_eq!(rt; header.free_pages, 513);
    assert_eq!(rt; header.rows, 16909060);
    Ok(())
}

#[test]
fn an_edit_begun_and_ended(rt: HostRuntime) -> Result<(), Fail> {
    let mut page = LARGE;
    set_edit(&mut page, true);
    assert_eq!(rt; page[1], 0xc3);
    assert_eq!(rt;
        Header::read(&page, 65535, 1024).err(),
        Some(HeaderFault::EditOpen)
    );
    set_edit(&mut page, false);
    assert_eq!(rt; page, LARGE);
    Ok(())
}

// What is told of the new index's page with some bytes changed.
fn told(rt: &impl Abort, changes: &[(usize, u8)]) -> Option<HeaderFault> {
    let mut page = NEW;
    for (at, byte) in changes {
        assert!(rt; *at < 20);
        page[*at] = *byte;
    }
    Header::read(&page, 48, 480).err()
}

// One byte of the new index's page, another value of it, and what is then told.
const WRONG: [(usize, u8, HeaderFault); 15] = [
    (0, 0xa4, HeaderFault::Field(0)),
    (1, 0xd2, HeaderFault::Field(0)),
    (1, 0xc4, HeaderFault::Field(12)),
    (1, 0xc3, HeaderFault::EditOpen),
    (3, 0x31, HeaderFault::Field(16)),
    (4, 0x3d, HeaderFault::Field(32)),
    (5, 0x01, HeaderFault::Field(43)),
    (5, 0x04, HeaderFault::Field(46)),
    (6, 0x02, HeaderFault::Field(50)),
    (8, 0x0c, HeaderFault::Field(58)),
    (9, 0x00, HeaderFault::Field(58)),
    (10, 0x0c, HeaderFault::Field(74)),
    (17, 0x20, HeaderFault::Field(138)),
    (18, 0x01, HeaderFault::Field(138)),
    (19, 0x80, HeaderFault::Field(138)),
];

#[test]
fn one_byte_wrong(rt: HostRuntime) -> Result<(), Fail> {
    assert_eq!(rt; told(&rt, &[]), None);
    for (at, byte, fault) in &WRONG {
        assert_eq!(rt; told(&rt, &[(*at, *byte)]), Some(*fault));
    }
    Ok(())
}

#[test]
fn more_than_one_wrong(rt: HostRuntime) -> Result<(), Fail> {
    assert_eq!(rt;
        told(&rt, &[(19, 1), (5, 0x01)]),
        Some(HeaderFault::Field(43))
    );
    assert_eq!(rt;
        told(&rt, &[(1, 0xc3), (19, 1)]),
        Some(HeaderFault::Field(138))
    );
    assert_eq!(rt;
        told(&rt, &[(9, 0x00), (6, 0x02)]),
        Some(HeaderFault::Field(50))
    );
    assert_eq!(rt;
        told(&rt, &[(5, 0x06), (6, 0x40)]),
        Some(HeaderFault::Field(46))
    );
    Ok(())
}

// The counts of free pages and of rows are not judged, nor is a first free page within the file.
#[test]
fn not_judged(rt: HostRuntime) -> Result<(), Fail> {
    assert_eq!(rt; told(&rt, &[(12, 0xff), (14, 0xff), (16, 0xff)]), None);
    assert_eq!(rt; told(&rt, &[(11, 0x00)]), None);
    Ok(())
}

#[test]
fn of_another_store(rt: HostRuntime) -> Result<(), Fail> {
    assert_eq!(rt;
        Header::read(&NEW, 47, 480).err(),
        Some(HeaderFault::Field(16))
    );
    assert_eq!(rt;
        Header::read(&NEW, 48, 481).err(),
        Some(HeaderFault::Field(32))
    );
    Ok(())
}
