use layout::{
    Cut, PageFault, Place, check_leaf, find, half_way, insert, remove, split, write_empty_leaf,
};
use std::process::Abort;
use std::test::Fail;

const THREE: [u8; 12] = [0x40, 3, 0, 0, 1, b'B', 2, b'C', b'E', 1, b'D', 0];

const WITHOUT_B: [u8; 12] = [0x40, 2, 0, 0, 2, b'C', b'E', 1, b'D', 0, 0, 0];

fn absent(index: usize, at: usize) -> Result<Place, PageFault> {
    Ok(Place {
        present: false,
        index,
        at,
    })
}

fn present(index: usize, at: usize) -> Result<Place, PageFault> {
    Ok(Place {
        present: true,
        index,
        at,
    })
}

#[test]
fn keys_put_in_and_taken_out(rt: HostRuntime) -> Result<(), Fail> {
    let mut page = [7u8; 12];
    write_empty_leaf(&mut page);
    assert_eq!(rt; page, [0x40, 0, 0, 0, 0, 0, 0, 0, 0, 0, 0, 0]);
    assert_eq!(rt; find(&page, b"B"), absent(0, 4));
    let places = [
        (0, 4, b"B".as_slice()),
        (1, 6, b"D".as_slice()),
        (1, 6, b"CE".as_slice()),
    ];
    for (index, at, key) in &places {
        let place = find(&page, *key);
        assert_eq!(rt; place, absent(*index, *at));
        if let Ok(place) = place {
            assert_eq!(rt; insert(&mut page, place, *key), Ok(()));
        }
    }
    assert_eq!(rt; page, THREE);
    Ok(())
}

#[test]
fn places(rt: HostRuntime) -> Result<(), Fail> {
    assert_eq!(rt; find(&THREE, b""), absent(0, 4));
    assert_eq!(rt; find(&THREE, b"A"), absent(0, 4));
    assert_eq!(rt; find(&THREE, b"B"), present(0, 4));
    assert_eq!(rt; find(&THREE, b"C"), absent(1, 6));
    assert_eq!(rt; find(&THREE, b"CE"), present(1, 6));
    assert_eq!(rt; find(&THREE, b"CEA"), absent(2, 9));
    assert_eq!(rt; find(&THREE, b"D"), present(2, 9));
    assert_eq!(rt; find(&THREE, b"D0"), absent(3, 11));
    Ok(())
}

#[test]
fn a_key_taken_out(rt: HostRuntime) -> Result<(), Fail> {
    let mut page = THREE;
    let Ok(place) = find(&page, b"B") else {
        panic!(rt; "no place");
    };
    assert_eq!(rt; remove(&mut page, place), Ok(()));
    assert_eq!(rt; page, WITHOUT_B);
    Ok(())
}

// No room for a cell of two bytes in the one byte left, and the page stays as it was.
#[test]
fn no_room(rt: HostRuntime) -> Result<(), Fail> {
    let mut page = THREE;
    let Ok(place) = find(&page, b"A") else {
        panic!(rt; "no place");
    };
    assert_eq!(rt; insert(&mut page, place, b"A"), Err(PageFault::Full));
    assert_eq!(rt; page, THREE);
    Ok(())
}

#[test]
fn keys_of_120_bytes(rt: HostRuntime) -> Result<(), Fail> {
    let mut page = [7u8; 250];
    write_empty_leaf(&mut page);
    let mut expected = [0u8; 250];
    expected[0] = 0x40;
    expected[1] = 2;
    for (at, byte) in [(4, 1u8), (125, 2)].iter() {
        expected[*at] = 120;
        expected[*at + 1..*at + 121].fill(*byte);
        let key = [*byte; 120];
        if let Ok(place) = find(&page, &key) {
            assert_eq!(rt; insert(&mut page, place, &key), Ok(()));
        }
    }
    assert_eq!(rt; page, expected);
    assert_eq!(rt; check_leaf(&page), Ok(2));
    Ok(())
}

// What the check says of the leaf of three keys with one byte changed.
fn checked(rt: &impl Abort, at: usize, byte: u8) -> Result<usize, PageFault> {
    let mut page = THREE;
    assert!(rt; at < 12);
    page[at] = byte;
    check_leaf(&page)
}

#[test]
fn whole_leaves(rt: HostRuntime) -> Result<(), Fail> {
    assert_eq!(rt; check_leaf(&THREE), Ok(3));
    assert_eq!(rt; check_leaf(&WITHOUT_B), Ok(2));
    assert_eq!(rt; check_leaf(&[0x40, 0, 0, 0]), Ok(0));
    assert_eq!(rt; check_leaf(&[0x40, 0, 0]), Err(PageFault::Damaged(0)));
    assert_eq!(rt; checked(&rt, 0, 0x80), Err(PageFault::Damaged(0)));
    assert_eq!(rt; checked(&rt, 0, 0x41), Err(PageFault::Damaged(11)));
    assert_eq!(rt; checked(&rt, 1, 2), Err(PageFault::Damaged(9)));
    assert_eq!(rt; checked(&rt, 2, 1), Err(PageFault::Damaged(2)));
    assert_eq!(rt; checked(&rt, 3, 1), Err(PageFault::Damaged(2)));
    assert_eq!(rt; checked(&rt, 4, 0), Err(PageFault::Damaged(4)));
    assert_eq!(rt; checked(&rt, 4, 121), Err(PageFault::Damaged(4)));
    assert_eq!(rt; checked(&rt, 5, b'C'), Ok(3));
    assert_eq!(rt; checked(&rt, 5, b'D'), Err(PageFault::Damaged(6)));
    assert_eq!(rt; checked(&rt, 7, b'B'), Ok(3));
    assert_eq!(rt; checked(&rt, 9, 3), Err(PageFault::Damaged(9)));
    assert_eq!(rt; checked(&rt, 10, b'C'), Err(PageFault::Damaged(9)));
    assert_eq!(rt; checked(&rt, 11, 1), Err(PageFault::Damaged(11)));
    Ok(())
}

#[test]
fn a_leaf_parted(rt: HostRuntime) -> Result<(), Fail> {
    let Ok(place) = find(&THREE, b"C") else {
        panic!(rt; "no place");
    };
    let mut page = THREE;
    let mut short = [7u8; 8];
    assert_eq!(rt; split(&mut page, &mut short, place), Err(PageFault::Full));
    assert_eq!(rt; page, THREE);
    assert_eq!(rt; short, [7u8; 8]);
    let mut right = [7u8; 12];
    assert_eq!(rt; split(&mut page, &mut right, place), Ok(()));
    assert_eq!(rt; page, [0x40, 1, 0, 0, 1, b'B', 0, 0, 0, 0, 0, 0]);
    assert_eq!(rt; right, WITHOUT_B);
    Ok(())
}

// Where the leaf of three keys is parted, of cells of 2, 3 and 2 bytes, with one more of a key that it does not have.
fn cut(key: &[u8]) -> Result<Cut, PageFault> {
    let place = find(&THREE, key)?;
    half_way(&THREE, place, key)
}

fn at_cut(index: usize, at: usize, stays: bool) -> Result<Cut, PageFault> {
    Ok(Cut { index, at, stays })
}

#[test]
fn where_a_leaf_is_parted(rt: HostRuntime) -> Result<(), Fail> {
    assert_eq!(rt; cut(b"A"), at_cut(2, 9, true));
    assert_eq!(rt; cut(b"C"), at_cut(2, 9, true));
    assert_eq!(rt; cut(b"CF"), at_cut(2, 9, false));
    assert_eq!(rt; cut(b"E"), at_cut(2, 9, false));
    assert_eq!(rt; cut(b"BAAAAA"), at_cut(1, 6, true));
    assert_eq!(rt; cut(b"DAAAAAAAAA"), at_cut(3, 11, true));
    Ok(())
}
