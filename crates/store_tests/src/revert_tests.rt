// Going back to a frozen state.
use crate::hands::on_store;
use chip::Chip;
use nor::{BLOCK_WORDS, Nor};
use std::test::Fail;
use store::Store;
use test_hands::Step::*;
use test_hands::*;

// Sectors 0 to 9, then state 12.
fn freeze_ten_sectors<C: Chip>(store: &mut Store<C>) -> Result<(), Fail> {
    play(store, &[Format(b"ten", Ok(1))])?;
    for sector in 0..10u8 {
        let clock = u32::from(sector) + 2;
        play(store, &[Write(u32::from(sector), 100 + sector, Ok(clock))])?;
    }
    play(store, &[Freeze(Ok(12))])
}

// Each round ticks twice; every seventh cleans a block.
fn write_and_delete<C: Chip>(store: &mut Store<C>) -> Result<(), Fail> {
    for round in 0..300u32 {
        let byte = (round % 200) as u8;
        let clock = 13 + 2 * round;
        check_eq(write(store, 20, byte), Ok(clock))?;
        check_eq(delete(store, 20), Ok(clock + 1))?;
        if round % 7 == 0 {
            check(clean(store).is_ok())?;
        }
    }
    Ok(())
}

fn overwrite<C: Chip>(store: &mut Store<C>) -> Result<(), Fail> {
    for round in 0..300u32 {
        let clock = 13 + 2 * round;
        check_eq(write(store, round % 10, 9), Ok(clock))?;
        check_eq(delete(store, round % 10), Ok(clock + 1))?;
    }
    Ok(())
}

fn ten_sectors_are_as_frozen<C: Chip>(store: &mut Store<C>) -> Result<(), Fail> {
    for sector in 0..10u8 {
        let clock = u32::from(sector) + 2;
        play(
            store,
            &[
                Read(u32::from(sector), 100 + sector),
                Since(u32::from(sector), Ok(Some(clock))),
            ],
        )?;
    }
    play(store, &[ReadEmpty(20), Held(&[12]), Count(Ok((10, 22)))])
}

fn revert_and_mount<C: Chip>(store: &mut Store<C>) -> Result<(), Fail> {
    play(store, &[Revert(12, Ok(613))])?;
    ten_sectors_are_as_frozen(store)?;
    play(store, &[Close(Ok(())), Mount(Ok(613))])?;
    ten_sectors_are_as_frozen(store)
}

fn incident<C: Chip>(store: &mut Store<C>) -> Result<(), Fail> {
    freeze_ten_sectors(store)?;
    write_and_delete(store)?;
    revert_and_mount(store)
}

#[test]
fn a_frozen_state_outlives_300_writes_and_deletes() -> Result<(), Fail> {
    let mut words = [0xFFFFu16; 4 * BLOCK_WORDS];
    on_store(Nor::new(&mut words), incident)
}

fn overwritten<C: Chip>(store: &mut Store<C>) -> Result<(), Fail> {
    freeze_ten_sectors(store)?;
    overwrite(store)?;
    play(
        store,
        &[Look(12, 9, 109), ReadEmpty(9), Count(Ok((20, 22)))],
    )?;
    revert_and_mount(store)
}

#[test]
fn a_frozen_state_outlives_changes_of_its_sectors() -> Result<(), Fail> {
    let mut words = [0xFFFFu16; 4 * BLOCK_WORDS];
    on_store(Nor::new(&mut words), overwritten)
}

#[test]
fn what_a_revert_took_does_not_come_back_at_mount() -> Result<(), Fail> {
    let mut words = [0xFFFFu16; 4 * BLOCK_WORDS];
    play_on(
        Nor::new(&mut words),
        &[
            Format(b"", Ok(1)),
            Write(5, 65, Ok(2)),
            Freeze(Ok(3)),
            Write(5, 66, Ok(4)),
            Write(5, 67, Ok(5)),
            Revert(3, Ok(6)),
            Read(5, 65),
            Count(Ok((1, 22))),
            Close(Ok(())),
            Mount(Ok(6)),
            Read(5, 65),
            Since(5, Ok(Some(2))),
            Held(&[3]),
            Count(Ok((1, 22))),
        ],
    )
}
