// Tests of the page layout.
#![tactic(auto)]

#[cfg(test)]
mod tests {
    use layout::*;
    use layout_write::*;
    use limits::*;
    use std::process::Abort;
    use std::test::Fail;
    use test_pages::{data_page, register_page, version};

    // Bytes that are written over a page from a place on, and the cause that comes of it.
    #[derive(Clone, Copy)]
    struct Change<'a> {
        at: usize,
        bytes: &'a [u8],
        cause: Option<u8>,
    }

    fn case(at: usize, bytes: &[u8], cause: Option<u8>) -> Change<'_> {
        Change { at, bytes, cause }
    }

    fn write_over(page: &mut [u8; 528], at: usize, bytes: &[u8]) {
        for (place, byte) in page.iter_mut().skip(at).zip(bytes) {
            *place = *byte;
        }
    }

    fn cause_of(page: &[u8; 528]) -> Option<u8> {
        check_page(page).err().map(Cause::number)
    }

    fn check_cases(rt: &impl Abort, page: &[u8; 528], cases: &[Change]) {
        for case in cases {
            let mut changed = *page;
            write_over(&mut changed, case.at, case.bytes);
            assert_eq!(rt; cause_of(&changed), case.cause);
        }
    }

    #[test]
    fn register_bytes(rt: HostRuntime) -> Result<(), Fail> {
        let page = register_page(7, &[3], b"K7").ok_or("limits")?;
        assert!(rt; page[0..14] == [8, 0, 4, 0, 12, 0, 2, 0, 3, 0, 0, 0, 0x4b, 0x37]);
        assert!(rt; page[14..512].iter().all(|byte| *byte == 0));
        assert!(rt; page[512..528] == [3, 0, 255, 255, 7, 0, 0, 0, 0, 0, 0, 0, 0, 0, 0, 0]);
        Ok(())
    }

    #[test]
    fn register_parts(rt: HostRuntime) -> Result<(), Fail> {
        let page = register_page(7, &[3], b"K7").ok_or("limits")?;
        let birth = Birth::new(7).ok_or("limits")?;
        let parts = read_register(&page, birth)?;
        let RegisterPart::Held { offset, bytes } = parts.held else {
            return Err(Fail::new("not the held numbers"));
        };
        assert_eq!(rt; offset, 8);
        assert_eq!(rt; bytes, [3, 0, 0, 0].as_slice());
        let RegisterPart::Label { offset, bytes } = parts.label else {
            return Err(Fail::new("not the label"));
        };
        assert_eq!(rt; offset, 12);
        assert_eq!(rt; bytes, b"K7".as_slice());
        Ok(())
    }

    // Kind, the byte after it, sector, birth, and the last eight bytes.
    #[test]
    fn tags(rt: HostRuntime) -> Result<(), Fail> {
        let page = data_page(5, 6, &[0x41; 512]).ok_or("limits")?;
        check_cases(
            &rt,
            &page,
            &[
                case(512, &[0], Some(30)),
                case(512, &[1], None),
                case(512, &[2], Some(31)),
                case(512, &[3], Some(30)),
                case(512, &[4], Some(30)),
                case(512, &[255], Some(30)),
                case(513, &[1], Some(30)),
                case(514, &[0xff, 0x07], None),
                case(514, &[0x00, 0x08], Some(30)),
                case(514, &[0xff, 0xff], Some(30)),
                case(516, &[0, 0, 0, 0], Some(30)),
                case(516, &[1, 0, 0, 0], None),
                case(516, &[0xfe, 0xff, 0xff, 0xff], None),
                case(516, &[0xff, 0xff, 0xff, 0xff], Some(30)),
            ],
        );
        for i in 520..528 {
            check_cases(&rt, &page, &[case(i, &[1], Some(30))]);
        }
        Ok(())
    }

    #[test]
    fn register_tags(rt: HostRuntime) -> Result<(), Fail> {
        let page = register_page(9, &[9], b"").ok_or("limits")?;
        check_cases(
            &rt,
            &page,
            &[
                case(514, &[0xfe, 0xff], Some(30)),
                case(514, &[0, 0], Some(30)),
                case(514, &[0xff, 0xff], None),
            ],
        );
        Ok(())
    }

    #[test]
    fn data_pages(rt: HostRuntime) -> Result<(), Fail> {
        let found = version(2047, 4294967294).ok_or("limits")?;
        let page = data_page(2047, 4294967294, &[0xff; 512]).ok_or("limits")?;
        assert_eq!(rt; check_page(&page)?.tag(), Tag::Data(found));
        assert!(rt; page[512..528] == [1, 0, 255, 7, 254, 255, 255, 255, 0, 0, 0, 0, 0, 0, 0, 0]);
        Ok(())
    }

    // The tag is checked before the data.
    #[test]
    fn deletions(rt: HostRuntime) -> Result<(), Fail> {
        let found = version(0, 1).ok_or("limits")?;
        let mut page = [0xff; 528];
        write_deletion(found, &mut page);
        assert_eq!(rt; check_page(&page)?.tag(), Tag::Deletion(found));
        check_cases(
            &rt,
            &page,
            &[
                case(0, &[1], Some(31)),
                case(300, &[0x80], Some(31)),
                case(511, &[1], Some(31)),
                case(511, &[1, 2, 1], Some(30)),
            ],
        );
        Ok(())
    }

    // One bit of an erased page is 0, at every place of the page.
    #[test]
    fn erased_pages(rt: HostRuntime) -> Result<(), Fail> {
        let page = [0xff; 528];
        assert_eq!(rt; check_page(&page)?.tag(), Tag::Erased);
        for i in 0..528 {
            check_cases(&rt, &page, &[case(i, &[0xfe], Some(30))]);
            check_cases(&rt, &page, &[case(i, &[0x7f], Some(30))]);
        }
        Ok(())
    }

    // Offsets and lengths, also with bad held numbers and with bytes after the label.
    #[test]
    fn register_pairs(rt: HostRuntime) -> Result<(), Fail> {
        let page = register_page(9, &[3, 7], b"K7").ok_or("limits")?;
        check_cases(
            &rt,
            &page,
            &[
                case(0, &[8, 0, 8, 0, 16, 0, 2, 0], None),
                case(0, &[7, 0], Some(32)),
                case(0, &[9, 0], Some(32)),
                case(0, &[8, 1], Some(32)),
                case(0, &[12, 0], Some(32)),
                case(0, &[0xff, 0xff], Some(32)),
                case(2, &[7, 0], Some(32)),
                case(2, &[5, 0, 13, 0], Some(32)),
                case(2, &[0xff, 0xff], Some(32)),
                case(2, &[0xfc, 0xff, 0x04, 0x00], Some(32)),
                case(4, &[15, 0], Some(32)),
                case(4, &[17, 0], Some(32)),
                case(4, &[0xff, 0xff], Some(32)),
                case(6, &[32, 0], None),
                case(6, &[33, 0], Some(32)),
                case(6, &[2, 1], Some(32)),
                case(6, &[0xff, 0xff], Some(32)),
                case(4, &[17, 0, 2, 0, 9, 0, 0, 0, 3], Some(32)),
                case(6, &[33, 0, 9, 0, 0, 0, 3], Some(32)),
            ],
        );
        Ok(())
    }

    // Eight held numbers, and nine, which are too many before they are falling.
    #[test]
    fn held_count(rt: HostRuntime) -> Result<(), Fail> {
        let page = register_page(9, &[1, 2, 3, 4, 5, 6, 7, 8], b"").ok_or("limits")?;
        check_cases(
            &rt,
            &page,
            &[
                case(2, &[32, 0, 40, 0], None),
                case(2, &[36, 0, 44, 0], Some(32)),
                case(40, &[9], Some(34)),
            ],
        );
        let mut longer = page;
        write_over(&mut longer, 2, &[36, 0, 44, 0]);
        check_cases(&rt, &longer, &[case(40, &[9], Some(32))]);
        Ok(())
    }

    // The held numbers 3 and 7 of a register of birth 9 stand at 8 and at 12.
    #[test]
    fn held_numbers(rt: HostRuntime) -> Result<(), Fail> {
        let page = register_page(9, &[3, 7], b"K7").ok_or("limits")?;
        check_cases(
            &rt,
            &page,
            &[
                case(8, &[0], Some(33)),
                case(8, &[1], None),
                case(8, &[6], None),
                case(8, &[7], Some(33)),
                case(8, &[8], Some(33)),
                case(12, &[9], None),
                case(12, &[10], Some(33)),
                case(15, &[1], Some(33)),
                case(516, &[7], None),
                case(516, &[6], Some(33)),
            ],
        );
        Ok(())
    }

    // The bytes after the label, also with bad held numbers.
    #[test]
    fn tails(rt: HostRuntime) -> Result<(), Fail> {
        let mut page = register_page(9, &[3, 7], b"K7").ok_or("limits")?;
        check_cases(
            &rt,
            &page,
            &[
                case(17, &[0], None),
                case(18, &[1], Some(34)),
                case(511, &[1], Some(34)),
                case(511, &[1, 4], Some(30)),
            ],
        );
        write_over(&mut page, 511, &[1]);
        check_cases(
            &rt,
            &page,
            &[case(12, &[2], Some(33)), case(4, &[17], Some(32))],
        );
        Ok(())
    }

    // A label of 32 bytes, and the values outside the limits.
    #[test]
    fn limits_of_values(rt: HostRuntime) -> Result<(), Fail> {
        let page = register_page(4294967294, &[1, 4294967294], &[0xff; 32]).ok_or("limits")?;
        assert_eq!(rt; cause_of(&page), None);
        assert!(rt; register_page(9, &[], &[0; 33]).is_none());
        assert!(rt; register_page(9, &[1, 2, 3, 4, 5, 6, 7, 8, 9], b"").is_none());
        assert!(rt; register_page(9, &[10], b"").is_none());
        assert!(rt; register_page(9, &[0], b"").is_none());
        assert!(rt; register_page(9, &[3, 3], b"").is_none());
        assert!(rt; version(2048, 1).is_none());
        assert!(rt; version(2047, 0).is_none());
        assert!(rt; version(2047, 4294967295).is_none());
        assert!(rt; version(2047, 1).is_some());
        Ok(())
    }

    #[test]
    fn registers_are_copied(rt: HostRuntime) -> Result<(), Fail> {
        let page = register_page(9, &[3, 7], b"K7").ok_or("limits")?;
        let Page::Register(found) = check_page(&page)? else {
            return Err(Fail::new("not a register"));
        };
        assert_eq!(rt; found.birth.number, 9);
        assert_eq!(rt; found.held.as_slice(), [3, 7].as_slice());
        assert_eq!(rt; found.label.as_slice(), b"K7".as_slice());
        Ok(())
    }
}
