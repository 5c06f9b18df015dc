use chip::{BlockNumber, Chip, ChipFault, PAGE_BYTES, PageNumber};
use nand::Nand;
use nor::Nor;
use partition::Partition;
use std::process::Abort;
use std::test::Fail;
use test_chips::{Counting, Row, Tiny};

// What is granted, or the number of the refusal, as docs/chips.md has it.
fn numbered(answer: Result<(), ChipFault>) -> Result<(), u8> {
    answer.map_err(ChipFault::number)
}

// A page of one byte throughout.
fn page_of(byte: u8) -> [u8; PAGE_BYTES] {
    [byte; PAGE_BYTES]
}

fn check_page<C: Chip>(rt: &impl Abort, chip: &C, page: u32, byte: u8) {
    let mut buffer = [0u8; PAGE_BYTES];
    assert_eq!(rt; numbered(chip.read(PageNumber(page), &mut buffer)), Ok(()));
    assert!(rt; buffer == page_of(byte));
}

// Page 2 is programmed; pages from `pages` on are lacking.
fn refuses_in_order<C: Chip>(rt: &impl Abort, chip: &mut C, pages: u32) {
    let mut short = [7u8; 527];
    assert_eq!(rt; numbered(chip.read(PageNumber(pages), &mut short)), Err(21));
    assert_eq!(rt; numbered(chip.read(PageNumber(2), &mut short)), Err(22));
    assert!(rt; short == [7u8; 527]);
    assert_eq!(rt; numbered(chip.program(PageNumber(pages), &short)), Err(21));
    assert_eq!(rt;
        numbered(chip.program(PageNumber(u32::MAX), &short)),
        Err(21)
    );
    assert_eq!(rt; numbered(chip.program(PageNumber(2), &short)), Err(22));
    assert_eq!(rt; numbered(chip.program(PageNumber(2), &page_of(1))), Err(23));
    assert_eq!(rt; numbered(chip.erase(BlockNumber(u32::MAX))), Err(21));
    check_page(rt, chip, 2, 0x5A);
}

// Buffers of other lengths are refused and stay as they are.
fn refuses_lengths<C: Chip>(rt: &impl Abort, chip: &mut C) {
    let mut long = [7u8; 529];
    assert_eq!(rt; numbered(chip.read(PageNumber(0), &mut [])), Err(22));
    assert_eq!(rt; numbered(chip.read(PageNumber(0), &mut long)), Err(22));
    assert!(rt; long == [7u8; 529]);
    assert_eq!(rt; numbered(chip.program(PageNumber(0), &[])), Err(22));
    assert_eq!(rt; numbered(chip.program(PageNumber(0), &long)), Err(22));
    check_page(rt, chip, 0, 0xFF);
}

// FF bytes are granted on an erased page, and refused on any other.
fn programs_ones<C: Chip>(rt: &impl Abort, chip: &mut C) {
    assert_eq!(rt;
        numbered(chip.program(PageNumber(1), &page_of(0xFF))),
        Ok(())
    );
    check_page(rt, chip, 1, 0xFF);
    assert_eq!(rt;
        numbered(chip.program(PageNumber(2), &page_of(0xFF))),
        Err(23)
    );
    check_page(rt, chip, 2, 0x5A);
}

// A page whose last tag byte alone is not FF is not erased.
fn last_tag_byte_counts<C: Chip>(rt: &impl Abort, chip: &mut C) {
    let mut bytes = page_of(0xFF);
    bytes[527] = 0xFE;
    assert_eq!(rt; numbered(chip.program(PageNumber(3), &bytes)), Ok(()));
    assert_eq!(rt; numbered(chip.program(PageNumber(3), &page_of(0))), Err(23));
    let mut buffer = [0u8; PAGE_BYTES];
    assert_eq!(rt; numbered(chip.read(PageNumber(3), &mut buffer)), Ok(()));
    assert!(rt; buffer == bytes);
}

// On an erased chip of at least four pages: `pages` in all.
fn behaves<C: Chip>(rt: &impl Abort, chip: &mut C, pages: u32) {
    assert_eq!(rt;
        numbered(chip.program(PageNumber(2), &page_of(0x5A))),
        Ok(())
    );
    refuses_in_order(rt, chip, pages);
    refuses_lengths(rt, chip);
    programs_ones(rt, chip);
    last_tag_byte_counts(rt, chip);
}

// Erases a block; the pages beside it stand.
fn erases_one_block<C: Chip>(rt: &impl Abort, chip: &mut C, block: u32, first: u32, last: u32) {
    for page in first.saturating_sub(1)..last.saturating_add(2) {
        assert_eq!(rt;
            numbered(chip.program(PageNumber(page), &page_of(0x11))),
            Ok(())
        );
    }
    assert_eq!(rt; numbered(chip.erase(BlockNumber(block))), Ok(()));
    check_page(rt, chip, first.saturating_sub(1), 0x11);
    for page in first..last.saturating_add(1) {
        check_page(rt, chip, page, 0xFF);
    }
    check_page(rt, chip, last.saturating_add(1), 0x11);
}

#[test]
fn nand_refuses_and_grants(rt: HostRuntime) {
    let mut image = [0xFFu8; 2 * 16896];
    behaves(&rt, &mut Nand::new(&mut image), 64);
}

#[test]
fn nor_refuses_and_grants(rt: HostRuntime) {
    let mut image = [0xFFFFu16; 2 * 2112];
    behaves(&rt, &mut Nor::new(&mut image), 16);
}

#[test]
fn partition_refuses_and_grants(rt: HostRuntime) {
    let mut image = [0xFFFFu16; 4 * 2112];
    let mut part = Partition::new(Nor::new(&mut image), BlockNumber(1), 2);
    behaves(&rt, &mut part, 16);
    let chip = part.into_below();
    check_page(&rt, &chip, 10, 0x5A);
    check_page(&rt, &chip, 2, 0xFF);
}

#[test]
fn an_erase_is_of_one_block(rt: HostRuntime) {
    let mut bytes = [0xFFu8; 3 * 16896];
    erases_one_block(&rt, &mut Nand::new(&mut bytes), 1, 32, 63);
    let mut words = [0xFFFFu16; 3 * 2112];
    erases_one_block(&rt, &mut Nor::new(&mut words), 1, 8, 15);
}

#[test]
fn page_one_of_nor_has_its_words(rt: HostRuntime) {
    let mut image = [0xFFFFu16; 2112];
    let mut bytes = page_of(0);
    bytes[0] = 0x34;
    bytes[1] = 0x12;
    bytes[512] = 0x78;
    bytes[513] = 0x56;
    let mut chip = Nor::new(&mut image);
    assert_eq!(rt; numbered(chip.program(PageNumber(1), &bytes)), Ok(()));
    let words = chip.into_image();
    assert!(rt; words.len() == 2112);
    assert_eq!(rt; words[256], 0x1234);
    assert_eq!(rt; words[511], 0);
    assert_eq!(rt; words[2056], 0x5678);
    assert_eq!(rt; words[2063], 0);
    assert_eq!(rt; words[255], 0xFFFF);
    assert_eq!(rt; words[512], 0xFFFF);
    assert_eq!(rt; words[2055], 0xFFFF);
    assert_eq!(rt; words[2064], 0xFFFF);
}

#[test]
fn nand_takes_whole_blocks(rt: HostRuntime) {
    let mut short = [0u8; 16895];
    let mut one = [0u8; 16896];
    let mut tail = [0u8; 16901];
    assert_eq!(rt; Nand::new(&mut []).size(), 0);
    assert_eq!(rt; Nand::new(&mut short).size(), 0);
    assert_eq!(rt; Nand::new(&mut one).size(), 1);
    assert_eq!(rt; Nand::new(&mut tail).size(), 1);
}

#[test]
fn nor_takes_whole_blocks(rt: HostRuntime) {
    let mut short = [0u16; 2111];
    let mut one = [0u16; 2112];
    let mut tail = [0u16; 2117];
    assert_eq!(rt; Nor::new(&mut []).size(), 0);
    assert_eq!(rt; Nor::new(&mut short).size(), 0);
    assert_eq!(rt; Nor::new(&mut one).size(), 1);
    assert_eq!(rt; Nor::new(&mut tail).size(), 1);
}

#[test]
fn a_chip_of_no_block_lacks_every_page(rt: HostRuntime) {
    let mut chip = Nand::new(&mut []);
    let mut buffer = page_of(9);
    assert_eq!(rt; numbered(chip.read(PageNumber(0), &mut buffer)), Err(21));
    assert_eq!(rt; numbered(chip.erase(BlockNumber(0))), Err(21));
    assert!(rt; buffer == page_of(9));
}

#[test]
fn a_tail_never_changes(rt: HostRuntime) {
    let mut bytes = [0x33u8; 16896 + 5];
    let mut chip = Nand::new(&mut bytes);
    assert_eq!(rt; numbered(chip.erase(BlockNumber(0))), Ok(()));
    assert_eq!(rt; numbered(chip.erase(BlockNumber(1))), Err(21));
    let image = chip.into_image();
    assert!(rt; image.len() == 16901);
    assert_eq!(rt; image[16895], 0xFF);
    assert!(rt; image[16896..16901] == [0x33u8; 5]);
}

#[test]
fn limits_are_128_and_512_blocks(rt: HostRuntime) -> Result<(), Fail> {
    let mut bytes = vec![in rt.alloc(); 0xFFu8; 129 * 16896]?;
    let chip = Nand::new(&mut bytes);
    assert_eq!(rt; chip.size(), 128);
    let mut buffer = page_of(0);
    assert_eq!(rt; numbered(chip.read(PageNumber(4095), &mut buffer)), Ok(()));
    assert_eq!(rt; numbered(chip.read(PageNumber(4096), &mut buffer)), Err(21));
    let mut words = vec![in rt.alloc(); 0xFFFFu16; 513 * 2112]?;
    let chip = Nor::new(&mut words);
    assert_eq!(rt; chip.size(), 512);
    assert_eq!(rt; numbered(chip.read(PageNumber(4095), &mut buffer)), Ok(()));
    assert_eq!(rt; numbered(chip.read(PageNumber(4096), &mut buffer)), Err(21));
    Ok(())
}

#[test]
fn a_partition_of_a_partition_adds_offsets(rt: HostRuntime) {
    let mut image = [0xFFFFu16; 5 * 2112];
    let outer = Partition::new(Nor::new(&mut image), BlockNumber(1), 3);
    let mut inner = Partition::new(outer, BlockNumber(1), 1);
    assert_eq!(rt; inner.size(), 1);
    assert_eq!(rt;
        numbered(inner.program(PageNumber(7), &page_of(0x21))),
        Ok(())
    );
    // Past the inner end, although the chips below have the page.
    assert_eq!(rt;
        numbered(inner.program(PageNumber(8), &page_of(0x21))),
        Err(21)
    );
    assert_eq!(rt; numbered(inner.erase(BlockNumber(1))), Err(21));
    let chip = inner.into_below().into_below();
    check_page(&rt, &chip, 23, 0x21);
    check_page(&rt, &chip, 24, 0xFF);
}

fn cut(first: u32, count: usize) -> usize {
    let mut image = [0xFFFFu16; 4 * 2112];
    Partition::new(Nor::new(&mut image), BlockNumber(first), count).size()
}

#[test]
fn a_partition_is_cut_to_what_exists(rt: HostRuntime) {
    assert_eq!(rt; cut(0, usize::MAX), 4);
    assert_eq!(rt; cut(1, usize::MAX), 3);
    assert_eq!(rt; cut(3, 9), 1);
    assert_eq!(rt; cut(4, 1), 0);
    assert_eq!(rt; cut(u32::MAX, 1), 0);
    assert_eq!(rt; cut(u32::MAX, usize::MAX), 0);
    assert_eq!(rt; cut(2, 0), 0);
}

#[test]
fn tiny_refuses_and_grants(rt: HostRuntime) {
    let mut rows = [Row::erased(); 7];
    let mut chip = Tiny::new(&mut rows);
    assert_eq!(rt; chip.size(), 3);
    behaves(&rt, &mut chip, 6);
}

#[test]
fn counting_counts_calls_of_each_kind(rt: HostRuntime) {
    let mut rows = [Row::erased(); 4];
    let mut chip = Counting::new(Tiny::new(&mut rows));
    assert_eq!(rt; numbered(chip.program(PageNumber(1), &page_of(3))), Ok(()));
    assert_eq!(rt; numbered(chip.program(PageNumber(1), &page_of(3))), Err(23));
    assert_eq!(rt; numbered(chip.erase(BlockNumber(0))), Ok(()));
    check_page(&rt, &chip, 1, 0xFF);
    check_page(&rt, &chip, 2, 0xFF);
    check_page(&rt, &chip, 3, 0xFF);
    assert_eq!(rt; chip.programs(), 2);
    assert_eq!(rt; chip.erases(), 1);
    assert_eq!(rt; chip.reads(), 3);
    assert_eq!(rt; chip.into_below().size(), 2);
}
