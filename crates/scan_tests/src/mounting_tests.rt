use chip::{Chip, PAGE_BYTES, PageNumber};
use mounting::mount_index;
use nor::Nor;
use refusals::Refusal;
use std::test::Fail;
use test_pages::{data_page, register_page};

// Whether mount grants a chip of NOR blocks with these pages from page 0 on, or its number.
fn verdict(words: &mut [u16], pages: &[[u8; PAGE_BYTES]]) -> Result<(), u8> {
    let mut chip = Nor::new(words);
    for (number, page) in (0..).zip(pages) {
        let _ = chip.program(PageNumber(number), page);
    }
    mount_index(&chip).map(|_| ()).map_err(Refusal::number)
}

#[test]
fn mount_refuses_by_size_then_page_then_store(rt: HostRuntime) -> Result<(), Fail> {
    let register = register_page(1, &[], b"K7").ok_or("limits")?;
    let mut one = [0xFFFFu16; 2112];
    assert_eq!(rt; verdict(&mut one, &[[0; PAGE_BYTES]]), Err(3));
    let mut bad = [0xFFFFu16; 2 * 2112];
    assert_eq!(rt; verdict(&mut bad, &[register, [0; PAGE_BYTES]]), Err(5));
    let mut empty = [0xFFFFu16; 2 * 2112];
    assert_eq!(rt; verdict(&mut empty, &[]), Err(6));
    let mut twice = [0xFFFFu16; 2 * 2112];
    assert_eq!(rt; verdict(&mut twice, &[register, register]), Err(6));
    let mut good = [0xFFFFu16; 2 * 2112];
    assert_eq!(rt; verdict(&mut good, &[register]), Ok(()));
    Ok(())
}

#[test]
fn mount_fills_the_tables(rt: HostRuntime) -> Result<(), Fail> {
    let register = register_page(7, &[3], b"K7").ok_or("limits")?;
    let old = data_page(5, 2, &[65; 512]).ok_or("limits")?;
    let new = data_page(5, 8, &[65; 512]).ok_or("limits")?;
    let mut words = [0xFFFFu16; 4 * 2112];
    let mut chip = Nor::new(&mut words);
    assert!(rt; chip.program(PageNumber(9), &register).is_ok());
    assert!(rt; chip.program(PageNumber(1), &new).is_ok());
    assert!(rt; chip.program(PageNumber(12), &old).is_ok());
    let index = mount_index(&chip)?;
    assert_eq!(rt; index.pages, 32);
    assert_eq!(rt; index.clock, 8);
    assert_eq!(rt; index.newest, 7);
    let page_of_5 = index.map[5];
    assert_eq!(rt; page_of_5, 1);
    let page_of_6 = index.map[6];
    assert_eq!(rt; page_of_6, 65535);
    assert_eq!(rt; index.at(12).link, 8);
    assert_eq!(rt; index.at(1).link, 0);
    assert_eq!(rt; index.spare.0, 2);
    Ok(())
}
