use chip::{BlockNumber, Chip, PAGE_BYTES, PageNumber};
use limits::{Held, Label};
use room::{clean_block, make_room, purge};
use std::process::Abort;
use std::test::Fail;
use tables::{Index, Kind, NO_PAGE, Record, unused_record};
use test_chips::{Counting, Row, Tiny};

const NO_LIMIT: u32 = u32::MAX;

fn record(kind: Kind, sector: u16, birth: u32, link: u32) -> Record {
    Record {
        birth,
        link,
        sector,
        kind,
    }
}

// Block 0 has the register and a version that page 2 replaced, block 1 two versions in the map; block
// 2 is the spare one.
fn index() -> Option<Index> {
    let held = Held::new(&[])?;
    let label = Label::new(&[])?;
    let mut ix = Index {
        records: [unused_record(); 2048],
        pages: 6,
        map: [NO_PAGE; 2048],
        clock: 4,
        newest: 1,
        held,
        label,
        spare: BlockNumber(2),
    };
    ix.put(0, record(Kind::Register, 0, 1, 0));
    ix.put(1, record(Kind::Data, 5, 2, 3));
    ix.put(2, record(Kind::Data, 5, 3, 0));
    ix.put(3, record(Kind::Deletion, 6, 4, 0));
    ix.map[5] = 2;
    ix.map[6] = 3;
    Some(ix)
}

// Page k of the first four is of the byte k.
fn rows() -> [Row; 6] {
    [
        Row::new([0; PAGE_BYTES]),
        Row::new([1; PAGE_BYTES]),
        Row::new([2; PAGE_BYTES]),
        Row::new([3; PAGE_BYTES]),
        Row::erased(),
        Row::erased(),
    ]
}

fn check_page<C: Chip>(rt: &impl Abort, chip: &C, page: u32, byte: u8) {
    let mut buffer = [7u8; PAGE_BYTES];
    assert_eq!(rt; chip.read(PageNumber(page), &mut buffer), Ok(()));
    assert!(rt; buffer == [byte; PAGE_BYTES]);
}

// One page stays of block 0: a read, a program and an erase.
#[test]
fn makes_room_by_one_block(rt: HostRuntime) -> Result<(), Fail> {
    let mut rows = rows();
    let mut chip = Counting::new(Tiny::new(&mut rows));
    let mut ix = index().ok_or("no index")?;
    assert_eq!(rt; make_room(&mut chip, &mut ix, NO_LIMIT), Ok(PageNumber(5)));
    assert_eq!(rt; chip.reads(), 1);
    assert_eq!(rt; chip.programs(), 1);
    assert_eq!(rt; chip.erases(), 1);
    assert_eq!(rt; ix.spare.0, 0);
    check_page(&rt, &chip, 4, 0);
    check_page(&rt, &chip, 0, 0xFF);
    check_page(&rt, &chip, 1, 0xFF);
    assert_eq!(rt; make_room(&mut chip, &mut ix, NO_LIMIT), Ok(PageNumber(5)));
    assert_eq!(rt; chip.erases(), 1);
    Ok(())
}

#[test]
fn cleans_until_nothing_is_stale(rt: HostRuntime) -> Result<(), Fail> {
    let mut rows = rows();
    let mut chip = Counting::new(Tiny::new(&mut rows));
    let mut ix = index().ok_or("no index")?;
    assert_eq!(rt; clean_block(&mut chip, &mut ix, NO_LIMIT), Ok(1));
    assert_eq!(rt; clean_block(&mut chip, &mut ix, NO_LIMIT), Ok(0));
    assert_eq!(rt; chip.erases(), 1);
    Ok(())
}

// Page 3 was born after 3; page 2 goes to the spare block, and the map with it.
#[test]
fn purges_what_was_born_later(rt: HostRuntime) -> Result<(), Fail> {
    let mut rows = rows();
    let mut chip = Counting::new(Tiny::new(&mut rows));
    let mut ix = index().ok_or("no index")?;
    assert_eq!(rt; purge(&mut chip, &mut ix, 3), Ok(()));
    assert_eq!(rt; chip.programs(), 1);
    assert_eq!(rt; chip.erases(), 1);
    check_page(&rt, &chip, 4, 2);
    check_page(&rt, &chip, 3, 0xFF);
    check_page(&rt, &chip, 1, 1);
    let page_of_5 = ix.map[5];
    assert_eq!(rt; page_of_5, 4);
    assert_eq!(rt; purge(&mut chip, &mut ix, 3), Ok(()));
    assert_eq!(rt; chip.erases(), 1);
    Ok(())
}
