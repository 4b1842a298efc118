// Sealed pages compared with the sums that tools/seal_sums.py computes, and stores that are cut too short or damaged.
#![tactic(auto)]

#[cfg(test)]
mod tests {
    use std::alloc::Global;
    use std::process::Abort;
    use std::test::Fail;
    use stores::{Image, PageStore, Seal, StoreFault, write_and_read};

    const MIXED: [u8; 8] = [0x01, 0x80, 0xff, 0x00, 0x7f, 0x10, 0xc8, 0x03];

    // The four bytes behind the data that a seal writes to page p of an image of so many pages, as one number.
    fn sums(
        rt: &impl Abort,
        heap: Global,
        count: usize,
        p: usize,
        data: &[u8],
    ) -> Result<u32, Fail> {
        assert!(rt; data.len() <= 1020 && count <= 65535);
        let n = data.len();
        let area = vec![in heap; 0u8; count * (n + 4)]?;
        let mut seal = Seal::new(Image::new(area, n + 4));
        seal.write(p, data)?;
        let image = seal.into_lower();
        let mut page = vec![in heap; 0u8; n + 4]?;
        image.read(p, page.as_mut_slice())?;
        Ok(u32::from_be_bytes([page[n], page[n + 1], page[n + 2], page[n + 3]]))
    }

    #[test]
    fn pages_of_zeros(rt: HostRuntime) -> Result<(), Fail> {
        let zeros = [0u8; 8];
        assert_eq!(rt; sums(&rt, rt.alloc(), 65535, 0, &zeros)?, 0x0000_0000);
        assert_eq!(rt; sums(&rt, rt.alloc(), 65535, 1, &zeros)?, 0x0001_0000);
        assert_eq!(rt; sums(&rt, rt.alloc(), 65535, 256, &zeros)?, 0x0100_0000);
        assert_eq!(rt; sums(&rt, rt.alloc(), 65535, 65534, &zeros)?, 0xfffe_0000);
        Ok(())
    }

    #[test]
    fn pages_of_ff(rt: HostRuntime) -> Result<(), Fail> {
        let ff = [255u8; 8];
        assert_eq!(rt; sums(&rt, rt.alloc(), 65535, 0, &ff)?, 0x07f8_23dc);
        assert_eq!(rt; sums(&rt, rt.alloc(), 65535, 7, &ff)?, 0x07ff_23dc);
        assert_eq!(rt; sums(&rt, rt.alloc(), 65535, 65534, &ff)?, 0x07f7_23dc);
        let long = vec![in rt.alloc(); 255u8; 1020]?;
        assert_eq!(rt; sums(&rt, rt.alloc(), 64, 0, &long)?, 0xf807_1be4);
        assert_eq!(rt; sums(&rt, rt.alloc(), 64, 63, &long)?, 0xf846_1be4);
        Ok(())
    }

    #[test]
    fn pages_of_mixed_bytes(rt: HostRuntime) -> Result<(), Fail> {
        assert_eq!(rt; sums(&rt, rt.alloc(), 65535, 0, &MIXED)?, 0x02da_0c69);
        assert_eq!(rt; sums(&rt, rt.alloc(), 65535, 300, &MIXED)?, 0x0406_0c69);
        assert_eq!(rt; sums(&rt, rt.alloc(), 65535, 65000, &MIXED)?, 0x00c3_0c69);
        let mut long = Vec::new(rt.alloc());
        // Bytes by a formula; the cast takes a remainder below 256.
        for j in 0u32..1020 {
            long.push(((37 * j + 11) % 256) as u8)?;
        }
        assert_eq!(rt; sums(&rt, rt.alloc(), 64, 5, &long)?, 0xfb4c_b551);
        assert_eq!(rt; sums(&rt, rt.alloc(), 64, 62, &long)?, 0xfb85_b551);
        Ok(())
    }

    // An area of zeros is sealed as page 0, and damaged as any other.
    #[test]
    fn zeros_that_nobody_sealed(rt: HostRuntime) -> Result<(), Fail> {
        let area = vec![in rt.alloc(); 0u8; 24]?;
        let seal = Seal::new(Image::new(area, 12));
        let mut buf = [9u8; 10];
        assert_eq!(rt; seal.read(1, &mut buf), Err(StoreFault::Damaged(1)));
        assert_eq!(rt; buf[0], 9);
        assert_eq!(rt; seal.read(2, &mut buf), Err(StoreFault::NoSuchPage(2)));
        assert_eq!(rt; seal.read(0, &mut buf), Ok(()));
        assert_eq!(rt; buf[7], 0);
        assert_eq!(rt; buf[8], 9);
        Ok(())
    }

    // A short buffer, and bytes that are not one page: refused once the page is there, and nothing changes.
    #[test]
    fn wrong_lengths_for_an_image(rt: HostRuntime) -> Result<(), Fail> {
        let mut image = Image::new(vec![in rt.alloc(); 7u8; 24]?, 12);
        let mut buf = [9u8; 11];
        assert_eq!(rt; image.read(2, &mut buf), Err(StoreFault::NoSuchPage(2)));
        assert_eq!(rt; image.read(1, &mut buf), Err(StoreFault::WrongLength));
        assert_eq!(rt; buf, [9u8; 11]);
        assert_eq!(rt; image.write(2, &[1u8; 11]), Err(StoreFault::NoSuchPage(2)));
        assert_eq!(rt; image.write(1, &[1u8; 11]), Err(StoreFault::WrongLength));
        assert_eq!(rt; image.write(1, &[1u8; 13]), Err(StoreFault::WrongLength));
        assert!(rt; image.into_area().iter().all(|byte| *byte == 7));
        Ok(())
    }

    // The same under a seal; a short buffer is told before the damage.
    #[test]
    fn wrong_lengths_for_a_sealed_image(rt: HostRuntime) -> Result<(), Fail> {
        let mut seal = Seal::new(Image::new(vec![in rt.alloc(); 7u8; 24]?, 12));
        let mut buf = [9u8; 7];
        assert_eq!(rt; seal.read(2, &mut buf), Err(StoreFault::NoSuchPage(2)));
        assert_eq!(rt; seal.read(1, &mut buf), Err(StoreFault::WrongLength));
        assert_eq!(rt; buf, [9u8; 7]);
        assert_eq!(rt; seal.write(2, &[1u8; 7]), Err(StoreFault::NoSuchPage(2)));
        assert_eq!(rt; seal.write(1, &[1u8; 7]), Err(StoreFault::WrongLength));
        assert_eq!(rt; seal.write(1, &[1u8; 12]), Err(StoreFault::WrongLength));
        assert!(rt; seal.into_lower().into_area().iter().all(|byte| *byte == 7));
        Ok(())
    }

    // The length and the count of pages under two seals, over 90 bytes in pages of this length.
    fn under_two_seals(heap: Global, len: usize) -> Result<(usize, usize), Fail> {
        let seal = Seal::new(Seal::new(Image::new(vec![in heap; 0u8; 90]?, len)));
        Ok((seal.page_len(), seal.page_count()))
    }

    // Two seals need 8 bytes; with fewer there are no pages.
    #[test]
    fn two_seals(rt: HostRuntime) -> Result<(), Fail> {
        assert_eq!(rt; under_two_seals(rt.alloc(), 4)?, (0, 0));
        assert_eq!(rt; under_two_seals(rt.alloc(), 7)?, (0, 0));
        assert_eq!(rt; under_two_seals(rt.alloc(), 8)?, (0, 11));
        assert_eq!(rt; under_two_seals(rt.alloc(), 9)?, (1, 10));
        Ok(())
    }

    // An area of sevens in pages of 16 bytes, once the second page is written under two seals.
    fn written(rt: &impl Abort, heap: Global) -> Result<Vec<u8>, Fail> {
        let mut seal = Seal::new(Seal::new(Image::new(vec![in heap; 7u8; 35]?, 16)));
        let mut buf = [0u8; 8];
        write_and_read(&mut seal, 1, &MIXED, &mut buf)?;
        assert_eq!(rt; u64::from_be_bytes(buf), u64::from_be_bytes(MIXED));
        Ok(seal.into_lower().into_lower().into_area())
    }

    #[test]
    fn a_page_under_two_seals(rt: HostRuntime) -> Result<(), Fail> {
        let area = written(&rt, rt.alloc())?;
        assert!(rt; area.len() == 35);
        assert_eq!(rt; area[15], 7);
        assert_eq!(rt; area[16], 1);
        assert_ne!(rt; area[31], 7);
        assert_eq!(rt; area[34], 7);
        Ok(())
    }

    // The one exchange that both sums miss: 257 data bytes, the last of them 00, and FF as the sums' first byte.
    #[test]
    fn the_missed_exchange(rt: HostRuntime) -> Result<(), Fail> {
        let mut data = vec![in rt.alloc(); 255u8; 256]?;
        data.push(0)?;
        assert_eq!(rt; sums(&rt, rt.alloc(), 1, 0, &data)?, 0xff00_0000);
        data[256] = 255;
        assert_eq!(rt; sums(&rt, rt.alloc(), 1, 0, &data)?, 0x0000_0000);
        Ok(())
    }

    #[test]
    fn lengths_of_an_image(rt: HostRuntime) -> Result<(), Fail> {
        assert_eq!(rt; Image::check(0), Err(StoreFault::PageLength));
        assert_eq!(rt; Image::check(1), Ok(()));
        assert_eq!(rt; Image::check(1024), Ok(()));
        assert_eq!(rt; Image::check(1025), Err(StoreFault::PageLength));
        let image = Image::new(vec![in rt.alloc(); 0u8; 70000]?, 1025);
        assert_eq!(rt; image.page_count(), 0);
        assert_eq!(rt; image.page_len(), 0);
        let image = Image::new(image.into_area(), 1);
        assert_eq!(rt; image.page_count(), 65535);
        Ok(())
    }
}
