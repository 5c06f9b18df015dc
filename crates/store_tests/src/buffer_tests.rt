// What the calls leave in a buffer.
use crate::hands::on_store;
use chip::{Chip, SectorNumber};
use nor::{BLOCK_WORDS, Nor};
use rules::Tick;
use std::test::Fail;
use store::Store;
use test_hands::Step::*;
use test_hands::*;

// A read or look that is refused with this number leaves a buffer of the right length as it was.
fn read_is_refused<C: Chip>(store: &Store<C>, sector: u32, number: u8) -> Result<(), Fail> {
    check_eq(read(store, sector, [9; 512]), (Err(number), [9; 512]))
}

fn look_is_refused<C: Chip>(
    store: &Store<C>,
    state: u32,
    sector: u32,
    number: u8,
) -> Result<(), Fail> {
    check_eq(
        look(store, state, sector, [9; 512]),
        (Err(number), [9; 512]),
    )
}

fn right_lengths_when_closed<C: Chip>(store: &Store<C>) -> Result<(), Fail> {
    check_eq(label(store, [9; 32]), (Err(2), [9; 32]))?;
    check_eq(held(store, [9; 8]), (Err(2), [9; 8]))
}

// Buffers that are too long or too short, by the number of the refusal.
fn lengths_are_refused<C: Chip>(store: &Store<C>, number: u8) -> Result<(), Fail> {
    let mut long = [9u8; 513];
    let mut short = [9u8; 31];
    let mut few = [9u32; 7];
    let read = store.read(SectorNumber(5), &mut long);
    check_eq(numbered(read), Err(number))?;
    let look = store.look(Tick(0), SectorNumber(5), &mut long);
    check_eq(numbered(look), Err(number))?;
    check_eq(numbered(store.label(&mut short)), Err(number))?;
    check_eq(numbered(store.label(&mut long)), Err(number))?;
    check_eq(numbered(store.held(&mut few)), Err(number))?;
    check(long == [9u8; 513] && short == [9u8; 31] && few == [9u32; 7])
}

fn refusals<C: Chip>(store: &mut Store<C>) -> Result<(), Fail> {
    read_is_refused(store, 2048, 2)?;
    look_is_refused(store, 0, 2048, 2)?;
    lengths_are_refused(store, 2)?;
    right_lengths_when_closed(store)?;
    play(
        store,
        &[Format(b"K7", Ok(1)), Write(5, 65, Ok(2)), Freeze(Ok(3))],
    )?;
    read_is_refused(store, 65541, 7)?;
    look_is_refused(store, 3, 65541, 7)?;
    look_is_refused(store, 2, 2048, 7)?;
    for state in [0, 2, u32::MAX] {
        look_is_refused(store, state, 5, 9)?;
    }
    lengths_are_refused(store, 8)
}

#[test]
fn a_refusal_leaves_the_buffer_as_it_was() -> Result<(), Fail> {
    let mut words = [0xFFFFu16; 2 * BLOCK_WORDS];
    on_store(Nor::new(&mut words), refusals)
}

// A sector that does not exist is told before a length.
fn lengths_of_writes<C: Chip>(store: &mut Store<C>) -> Result<(), Fail> {
    play(store, &[Format(b"", Ok(1)), Write(5, 65, Ok(2))])?;
    check_eq(tick(store.write(SectorNumber(5), &[66; 511])), Err(8))?;
    check_eq(tick(store.write(SectorNumber(5), &[66; 513])), Err(8))?;
    check_eq(tick(store.write(SectorNumber(2047), &[])), Err(8))?;
    check_eq(tick(store.write(SectorNumber(2048), &[66; 511])), Err(7))?;
    play(store, &[Read(5, 65), ReadEmpty(2047), Freeze(Ok(3))])
}

#[test]
fn a_write_takes_512_bytes() -> Result<(), Fail> {
    let mut words = [0xFFFFu16; 2 * BLOCK_WORDS];
    on_store(Nor::new(&mut words), lengths_of_writes)
}

// The buffers of these steps are filled before.
#[test]
fn empty_overwrites_the_buffer_with_zeros() -> Result<(), Fail> {
    let mut words = [0xFFFFu16; 2 * BLOCK_WORDS];
    play_on(
        Nor::new(&mut words),
        &[
            Format(b"", Ok(1)),
            ReadEmpty(5),
            Held(&[]),
            Label(b""),
            Freeze(Ok(2)),
            Write(5, 65, Ok(3)),
            LookEmpty(2, 5),
            Delete(5, Ok(4)),
            ReadEmpty(5),
            Held(&[2]),
        ],
    )
}
