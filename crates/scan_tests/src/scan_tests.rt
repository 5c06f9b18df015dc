use chip::{PAGE_BYTES, PageNumber};
use layout::{Cause, Tag};
use limits::Birth;
use scan::{BadPage, scan};
use std::test::Fail;
use test_chips::{Row, Tiny};
use test_pages::register_page;

// The birth of the youngest register of a chip of two pages.
fn youngest(first: [u8; PAGE_BYTES], second: [u8; PAGE_BYTES]) -> Result<Option<u32>, BadPage> {
    let mut rows = [Row::new(first), Row::new(second)];
    let mut table = [Tag::Erased; 2];
    let register = scan(&Tiny::new(&mut rows), &mut table)?;
    Ok(register.map(|register| register.birth.number))
}

fn bad(page: u32, cause: Cause) -> Result<Option<u32>, BadPage> {
    let page = PageNumber(page);
    Err(BadPage { page, cause })
}

#[test]
fn the_lowest_bad_page_is_told(rt: HostRuntime) -> Result<(), Fail> {
    let erased = [0xFF; PAGE_BYTES];
    let good = register_page(7, &[3], b"K7").ok_or("limits")?;
    let mut tail = good;
    tail[511] = 1;
    let mut held = good;
    held[8] = 8;
    assert_eq!(rt; youngest(erased, erased), Ok(None));
    assert_eq!(rt; youngest(erased, good), Ok(Some(7)));
    assert_eq!(rt; youngest(good, tail), bad(1, Cause::Tail));
    assert_eq!(rt; youngest(tail, good), bad(0, Cause::Tail));
    assert_eq!(rt; youngest(held, tail), bad(0, Cause::Held));
    assert_eq!(rt; youngest([0; PAGE_BYTES], held), bad(0, Cause::Tag));
    Ok(())
}

#[test]
fn the_youngest_register_is_told(rt: HostRuntime) -> Result<(), Fail> {
    let old = register_page(7, &[3], b"K7").ok_or("limits")?;
    let young = register_page(8, &[], b"K7").ok_or("limits")?;
    assert_eq!(rt; youngest(old, young), Ok(Some(8)));
    assert_eq!(rt; youngest(young, old), Ok(Some(8)));
    assert_eq!(rt; youngest(old, old), Ok(Some(7)));
    Ok(())
}

#[test]
fn a_table_may_be_longer_or_shorter_than_the_chip(rt: HostRuntime) -> Result<(), Fail> {
    let second = register_page(7, &[3], b"K7").ok_or("limits")?;
    let birth = Birth::new(7).ok_or("limits")?;
    let mut rows = [Row::erased(), Row::new(second)];
    let chip = Tiny::new(&mut rows);
    let mut long = [Tag::Register(birth); 3];
    assert!(rt; scan(&chip, &mut long).is_ok());
    assert_eq!(rt; long[0], Tag::Erased);
    assert_eq!(rt; long[1], Tag::Register(birth));
    let mut short = [Tag::Register(birth); 1];
    assert!(rt; scan(&chip, &mut short).is_ok());
    assert_eq!(rt; short[0], Tag::Erased);
    Ok(())
}
