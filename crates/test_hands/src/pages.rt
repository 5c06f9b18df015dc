// Pages for crafted chips.
use crate::{check, sector_of};
use chip::{Chip, PAGE_BYTES, PageNumber};
use std::test::Fail;

// A register with the label "K7".
pub fn register_page(birth: u32, held: &[u32]) -> Result<[u8; PAGE_BYTES], Fail> {
    Ok(test_pages::register_page(birth, held, b"K7").ok_or("no such register")?)
}

pub fn data_page(sector: u32, birth: u32, byte: u8) -> Result<[u8; PAGE_BYTES], Fail> {
    Ok(test_pages::data_page(sector, birth, &sector_of(byte)).ok_or("no such version")?)
}

pub fn deletion_page(sector: u32, birth: u32) -> Result<[u8; PAGE_BYTES], Fail> {
    Ok(test_pages::deletion_page(sector, birth).ok_or("no such version")?)
}

// The page with another byte at a place.
pub fn changed(mut page: [u8; PAGE_BYTES], at: usize, byte: u8) -> [u8; PAGE_BYTES] {
    if let Some(old) = page.get_mut(at) {
        *old = byte;
    }
    page
}

// Programs a page.
pub fn put<C: Chip>(chip: &mut C, page: u32, bytes: &[u8; PAGE_BYTES]) -> Result<(), Fail> {
    check(chip.program(PageNumber(page), bytes).is_ok())
}
