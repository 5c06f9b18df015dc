// Where the limits lie.
// (Each test lends its chip the words: in one function for all, how many would be a computed const argument.)
use chip::BlockNumber;
use nor::{BLOCK_WORDS, Nor};
use partition::Partition;
use std::mem::size_of;
use std::test::Fail;
use store::Store;
use test_chips::Tiny;
use test_hands::Step::*;
use test_hands::*;

#[test]
fn sectors_end_at_2047() -> Result<(), Fail> {
    let mut words = [0xFFFFu16; 4 * BLOCK_WORDS];
    play_on(
        Nor::new(&mut words),
        &[
            Format(b"", Ok(1)),
            Write(2047, 65, Ok(2)),
            Read(2047, 65),
            Write(2048, 66, Err(7)),
            Write(65541, 66, Err(7)),
            Delete(65541, Err(7)),
            Since(65541, Err(7)),
            SinceIn(9, 2048, Err(7)),
            ReadEmpty(5),
            Count(Ok((1, 22))),
        ],
    )
}

#[test]
fn eight_states_are_held_and_no_ninth() -> Result<(), Fail> {
    let mut words = [0xFFFFu16; 2 * BLOCK_WORDS];
    play_on(
        Nor::new(&mut words),
        &[
            Format(b"", Ok(1)),
            Freeze(Ok(2)),
            Freeze(Ok(3)),
            Freeze(Ok(4)),
            Freeze(Ok(5)),
            Freeze(Ok(6)),
            Freeze(Ok(7)),
            Freeze(Ok(8)),
            Freeze(Ok(9)),
            Freeze(Err(10)),
            Held(&[2, 3, 4, 5, 6, 7, 8, 9]),
            Release(5, Ok(10)),
            Freeze(Ok(11)),
            Held(&[2, 3, 4, 6, 7, 8, 9, 11]),
        ],
    )
}

#[test]
fn numbers_that_are_not_held_are_refused() -> Result<(), Fail> {
    let mut words = [0xFFFFu16; 2 * BLOCK_WORDS];
    play_on(
        Nor::new(&mut words),
        &[
            Format(b"", Ok(1)),
            Freeze(Ok(2)),
            Release(0, Err(9)),
            Revert(0, Err(9)),
            SinceIn(0, 0, Err(9)),
            Release(1, Err(9)),
            Revert(3, Err(9)),
            Release(u32::MAX, Err(9)),
            Revert(u32::MAX, Err(9)),
            SinceIn(u32::MAX, 0, Err(9)),
            Held(&[2]),
            SinceIn(2, 0, Ok(None)),
        ],
    )
}

// Two blocks in the midst of four.
#[test]
fn a_label_has_32_bytes_at_most() -> Result<(), Fail> {
    let mut words = [0xFFFFu16; 4 * BLOCK_WORDS];
    play_on(
        Partition::new(Nor::new(&mut words), BlockNumber(1), 2),
        &[
            Format(&[75; 33], Err(4)),
            Close(Err(2)),
            Format(&[75; 32], Ok(1)),
            Label(&[75; 32]),
            Count(Ok((0, 6))),
        ],
    )
}

// The last of four blocks.
#[test]
fn one_block_is_too_small() -> Result<(), Fail> {
    let mut words = [0xFFFFu16; 4 * BLOCK_WORDS];
    play_on(
        Partition::new(Nor::new(&mut words), BlockNumber(3), 2),
        &[
            Format(&[75; 33], Err(3)),
            Format(b"", Err(3)),
            Mount(Err(3)),
            Count(Err(2)),
        ],
    )
}

#[test]
fn an_open_store_is_not_opened_and_a_closed_one_does_nothing() -> Result<(), Fail> {
    let mut words = [0xFFFFu16; 2 * BLOCK_WORDS];
    play_on(
        Nor::new(&mut words),
        &[
            Mount(Err(6)),
            Format(b"", Ok(1)),
            Format(&[75; 33], Err(1)),
            Mount(Err(1)),
            Close(Ok(())),
            Close(Err(2)),
            Write(2048, 65, Err(2)),
            Delete(2048, Err(2)),
            Freeze(Err(2)),
            Release(0, Err(2)),
            Revert(0, Err(2)),
            Clean(Err(2)),
            Since(2048, Err(2)),
            SinceIn(0, 2048, Err(2)),
            Count(Err(2)),
            Mount(Ok(1)),
        ],
    )
}

// All that a store has besides its chip.
#[test]
fn memory_is_at_most_32768_bytes() -> Result<(), Fail> {
    let nor = size_of::<Store<Nor<'static>>>().saturating_sub(size_of::<Nor<'static>>());
    let tiny = size_of::<Store<Tiny<'static>>>().saturating_sub(size_of::<Tiny<'static>>());
    check(nor > 0 && nor <= 32768)?;
    check(tiny > 0 && tiny <= 32768)
}
