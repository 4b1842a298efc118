use layout::{PageFault, read_free, write_free};
use std::test::Fail;

const LINKED: [u8; 7] = [0xc0, 0x00, 0x01, 0x2c, 0x00, 0x00, 0x00];

#[test]
fn free_pages_written_and_read(rt: HostRuntime) -> Result<(), Fail> {
    let mut page = [7u8; 7];
    write_free(&mut page, 300);
    assert_eq!(rt; page, LINKED);
    assert_eq!(rt; read_free(&page), Ok(300));
    let mut page = [7u8; 4];
    write_free(&mut page, 0);
    assert_eq!(rt; page, [0xc0, 0x00, 0x00, 0x00]);
    assert_eq!(rt; read_free(&page), Ok(0));
    Ok(())
}

#[test]
fn no_free_pages(rt: HostRuntime) -> Result<(), Fail> {
    assert_eq!(rt; read_free(&[]), Err(PageFault::Damaged(0)));
    assert_eq!(rt; read_free(&[0xc0, 0x00, 0x01]), Err(PageFault::Damaged(0)));
    assert_eq!(rt;
        read_free(&[0x40, 0x00, 0x00, 0x00]),
        Err(PageFault::Damaged(0))
    );
    assert_eq!(rt;
        read_free(&[0xc0, 0x01, 0x00, 0x00]),
        Err(PageFault::Damaged(0))
    );
    let mut page = LINKED;
    page[6] = 1;
    assert_eq!(rt; read_free(&page), Err(PageFault::Damaged(6)));
    page[4] = 128;
    assert_eq!(rt; read_free(&page), Err(PageFault::Damaged(4)));
    Ok(())
}
