// The smallest chips, worn.
use crate::hands::on_store;
use chip::Chip;
use nor::{BLOCK_WORDS, Nor};
use std::test::Fail;
use store::Store;
use test_chips::{Row, Tiny};
use test_hands::Step::*;
use test_hands::*;

fn byte_of(round: u32) -> u8 {
    (round % 251) as u8
}

// The last six rounds wrote six sectors.
fn six_sectors<C: Chip>(store: &mut Store<C>, round: u32) -> Result<(), Fail> {
    for back in 0..6u32 {
        let round = round.saturating_sub(back);
        play(store, &[Read(round % 6, byte_of(round))])?;
    }
    play(store, &[Count(Ok((6, 6))), Write(6, 1, Err(12))])
}

fn fill_over_and_over<C: Chip>(store: &mut Store<C>) -> Result<(), Fail> {
    play(store, &[Format(b"six", Ok(1))])?;
    for round in 0..300u32 {
        let clock = round + 2;
        let change = Write(round % 6, byte_of(round), Ok(clock));
        play(store, &[change, Close(Ok(())), Mount(Ok(clock))])?;
        if round >= 5 {
            six_sectors(store, round)?;
        }
    }
    Ok(())
}

#[test]
fn two_blocks_are_filled_and_overwritten() -> Result<(), Fail> {
    let mut words = [0xFFFFu16; 2 * BLOCK_WORDS];
    on_store(Nor::new(&mut words), fill_over_and_over)
}

// Each round ticks three times: a state is frozen, gone back to and released.
fn nothing_fits<C: Chip>(store: &mut Store<C>) -> Result<(), Fail> {
    play(store, &[Format(b"none", Ok(1))])?;
    for round in 0..50u32 {
        let state = 2 + 3 * round;
        play(
            store,
            &[
                Write(0, 65, Err(12)),
                Freeze(Ok(state)),
                Held(&[state]),
                Revert(state, Ok(state + 1)),
                Close(Ok(())),
                Mount(Ok(state + 1)),
                Release(state, Ok(state + 2)),
                Held(&[]),
                Count(Ok((0, 0))),
            ],
        )?;
    }
    play(store, &[Delete(0, Ok(151)), Label(b"none")])
}

#[test]
fn capacity_0_still_freezes_and_reverts() -> Result<(), Fail> {
    let mut rows = [Row::erased(); 4];
    on_store(Tiny::new(&mut rows), nothing_fits)
}

fn fill_beside_a_state<C: Chip>(store: &mut Store<C>) -> Result<(), Fail> {
    play(
        store,
        &[
            Format(b"", Ok(1)),
            Write(1, 65, Ok(2)),
            Write(2, 66, Ok(3)),
            Freeze(Ok(4)),
            Write(1, 67, Ok(5)),
            Delete(2, Ok(6)),
            Count(Ok((4, 4))),
            Write(3, 1, Err(12)),
            Freeze(Ok(7)),
            Delete(1, Err(12)),
            Delete(2, Ok(7)),
            Release(7, Ok(8)),
        ],
    )
}

fn overwrite_beside_a_state<C: Chip>(store: &mut Store<C>) -> Result<(), Fail> {
    fill_beside_a_state(store)?;
    for round in 0..100u32 {
        let clock = round + 9;
        let byte = byte_of(round);
        play(
            store,
            &[
                Write(1, byte, Ok(clock)),
                Close(Ok(())),
                Mount(Ok(clock)),
                Read(1, byte),
                ReadEmpty(2),
                Look(4, 1, 65),
                Look(4, 2, 66),
            ],
        )?;
    }
    play(
        store,
        &[
            Revert(4, Ok(109)),
            Read(1, 65),
            Read(2, 66),
            Count(Ok((2, 4))),
        ],
    )
}

#[test]
fn four_blocks_of_two_pages_keep_four_versions() -> Result<(), Fail> {
    let mut rows = [Row::erased(); 8];
    on_store(Tiny::new(&mut rows), overwrite_beside_a_state)
}
