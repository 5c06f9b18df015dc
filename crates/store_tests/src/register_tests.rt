// The bytes of the register on the chip.
use chip::{Chip, PAGE_BYTES, PageNumber};
use nor::{BLOCK_WORDS, Nor};
use std::test::Fail;
use store::Store;
use test_hands::Step::*;
use test_hands::*;

// The birth of a register, none of any other page.
fn birth_of(page: &[u8; PAGE_BYTES]) -> Option<u32> {
    (page[512] == 3).then(|| u32::from_le_bytes([page[516], page[517], page[518], page[519]]))
}

fn page_at<C: Chip>(chip: &C, number: u32) -> [u8; PAGE_BYTES] {
    let mut page = [0; PAGE_BYTES];
    let _ = chip.read(PageNumber(number), &mut page);
    page
}

// The page of the register with the greatest birth, of 32 pages.
fn youngest_register<C: Chip>(chip: &C) -> Option<u32> {
    (0..32).max_by_key(|number| birth_of(&page_at(chip, *number)))
}

#[test]
fn label_k7_and_held_3_have_these_bytes() -> Result<(), Fail> {
    let mut words = [0xFFFFu16; 4 * BLOCK_WORDS];
    let steps = [Format(b"K7", Ok(1)), Write(5, 65, Ok(2)), Freeze(Ok(3))];
    let mut store = Store::new(Nor::new(&mut words));
    let end = play(&mut store, &steps);
    let chip = store.unmount();
    end?;
    let mut wanted = [0; PAGE_BYTES];
    wanted[0..14].copy_from_slice(&[
        0x08, 0x00, 0x04, 0x00, 0x0C, 0x00, 0x02, 0x00, 0x03, 0x00, 0x00, 0x00, 0x4B, 0x37,
    ]);
    wanted[512..520].copy_from_slice(&[3, 0, 0xFF, 0xFF, 3, 0, 0, 0]);
    let page = youngest_register(&chip).ok_or("no page")?;
    check(page_at(&chip, page) == wanted)
}
