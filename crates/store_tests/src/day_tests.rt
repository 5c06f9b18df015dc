// A day of calls, on chips of two makes.
use crate::hands::{on_store, slip_around};
use chip::{BlockNumber, Chip, PAGE_BYTES, PageNumber};
use nand::{BLOCK_BYTES, Nand};
use nor::{BLOCK_WORDS, Nor};
use partition::Partition;
use std::test::Fail;
use store::Store;
use test_hands::Step::*;
use test_hands::*;

fn morning<C: Chip>(store: &mut Store<C>, capacity: usize) -> Result<(), Fail> {
    play(
        store,
        &[
            Format(b"day", Ok(1)),
            Write(3, 65, Ok(2)),
            Freeze(Ok(3)),
            Write(3, 66, Ok(4)),
            Write(4, 67, Ok(5)),
            Read(3, 66),
            Look(3, 3, 65),
            LookEmpty(3, 4),
            Since(3, Ok(Some(4))),
            SinceIn(3, 3, Ok(Some(2))),
            SinceIn(3, 4, Ok(None)),
            Count(Ok((3, capacity))),
            Delete(4, Ok(6)),
            Delete(4, Ok(6)),
            ReadEmpty(4),
            Since(4, Ok(None)),
            Count(Ok((3, capacity))),
            Revert(3, Ok(7)),
            Read(3, 65),
            Since(3, Ok(Some(2))),
            ReadEmpty(4),
            Held(&[3]),
            Count(Ok((1, capacity))),
        ],
    )
}

// A slip of 8 is spent by back: the write after it is gone.
fn noon<C: Chip>(store: &mut Store<C>) -> Result<(), Fail> {
    check_eq(
        slip_around(
            store,
            |store| write(store, 3, 68),
            |store, slip| tick(store.back(slip)),
        )?,
        (8, Ok(9), Ok(10)),
    )?;
    play(store, &[Read(3, 65), Held(&[3])])
}

// A slip of 11 is spent by keep: the write after it stays.
fn evening<C: Chip>(store: &mut Store<C>) -> Result<(), Fail> {
    check_eq(
        slip_around(
            store,
            |store| write(store, 5, 69),
            |store, slip| tick(store.keep(slip)),
        )?,
        (11, Ok(12), Ok(13)),
    )?;
    play(store, &[Read(5, 69), Held(&[3])])
}

// Cleans until nothing is stale.
fn tidy<C: Chip>(store: &mut Store<C>) -> Result<(), Fail> {
    check_ne(clean(store), Ok(0))?;
    check((0..4).any(|_| clean(store) == Ok(0)))
}

fn night<C: Chip>(store: &mut Store<C>, capacity: usize) -> Result<(), Fail> {
    play(store, &[Release(3, Ok(14)), Revert(3, Err(9))])?;
    tidy(store)?;
    play(
        store,
        &[
            Close(Ok(())),
            Count(Err(2)),
            Mount(Ok(14)),
            Read(3, 65),
            ReadEmpty(4),
            Read(5, 69),
            Held(&[]),
            Label(b"day"),
            Count(Ok((2, capacity))),
        ],
    )
}

fn day<C: Chip>(store: &mut Store<C>, capacity: usize) -> Result<(), Fail> {
    morning(store, capacity)?;
    noon(store)?;
    evening(store)?;
    night(store, capacity)
}

fn nand_day<C: Chip>(store: &mut Store<C>) -> Result<(), Fail> {
    day(store, 62)
}

#[test]
fn a_day_on_nand() -> Result<(), Fail> {
    let mut bytes = [0xFFu8; 3 * BLOCK_BYTES];
    on_store(Nand::new(&mut bytes), nand_day)
}

// The blocks beside the partition stay as they were.
#[test]
fn a_day_on_a_partition_of_nor() -> Result<(), Fail> {
    let mut words = [0xFFFFu16; 5 * BLOCK_WORDS];
    let mut chip = Nor::new(&mut words);
    put(&mut chip, 7, &[17; PAGE_BYTES])?;
    put(&mut chip, 32, &[18; PAGE_BYTES])?;
    let mut store = Store::new(Partition::new(chip, BlockNumber(1), 3));
    let end = day(&mut store, 14);
    let chip = store.unmount().into_below();
    end?;
    let mut before = [0; PAGE_BYTES];
    let mut after = [0; PAGE_BYTES];
    chip.read(PageNumber(7), &mut before)?;
    chip.read(PageNumber(32), &mut after)?;
    check(before == [17; PAGE_BYTES] && after == [18; PAGE_BYTES])
}
