// Slips, spent by keep and back.
use crate::hands::{on_store, slip_around};
use chip::Chip;
use nor::{BLOCK_WORDS, Nor};
use std::test::Fail;
use store::Store;
use test_hands::Step::*;
use test_hands::*;

// Sector 5 is A, then state 3, then B.
fn state_three<C: Chip>(store: &mut Store<C>) -> Result<(), Fail> {
    let steps = [
        Format(b"", Ok(1)),
        Write(5, 65, Ok(2)),
        Freeze(Ok(3)),
        Write(5, 66, Ok(4)),
    ];
    play(store, &steps)
}

// A slip of the number 3 of `one` goes back on `other`.
fn spend_elsewhere<A: Chip, B: Chip>(one: &mut Store<A>, other: &mut Store<B>) -> Result<(), Fail> {
    state_three(other)?;
    play(one, &[Format(b"", Ok(1)), Write(5, 67, Ok(2))])?;
    let slip = one.open()?;
    let number = slip.number().0;
    let answer = tick(other.back(slip));
    check_eq((number, answer), (3, Ok(5)))?;
    play(other, &[Read(5, 65), Held(&[])])?;
    play(one, &[Read(5, 67), Held(&[3])])
}

#[test]
fn a_slip_of_another_store_is_honoured_by_its_number() -> Result<(), Fail> {
    let mut words = [0xFFFFu16; 2 * BLOCK_WORDS];
    let mut others = [0xFFFFu16; 2 * BLOCK_WORDS];
    let mut one = Store::new(Nor::new(&mut words));
    let mut other = Store::new(Nor::new(&mut others));
    let end = spend_elsewhere(&mut one, &mut other);
    let _ = one.unmount();
    let _ = other.unmount();
    end
}

// The number 5 is released before its slip is spent.
fn keep_too_late<C: Chip>(store: &mut Store<C>) -> Result<(), Fail> {
    state_three(store)?;
    check_eq(
        slip_around(
            store,
            |store| release(store, 5),
            |store, slip| tick(store.keep(slip)),
        )?,
        (5, Ok(6), Err(9)),
    )
}

// The number 7 ends by a revert to 3 before its slip is spent.
fn back_too_late<C: Chip>(store: &mut Store<C>) -> Result<(), Fail> {
    keep_too_late(store)?;
    check_eq(
        slip_around(
            store,
            |store| revert(store, 3),
            |store, slip| tick(store.back(slip)),
        )?,
        (7, Ok(8), Err(9)),
    )?;
    play(store, &[Held(&[3]), Read(5, 65), Freeze(Ok(9))])
}

#[test]
fn a_slip_of_an_ended_number_is_refused() -> Result<(), Fail> {
    let mut words = [0xFFFFu16; 2 * BLOCK_WORDS];
    on_store(Nor::new(&mut words), back_too_late)
}

fn spend_when_closed<C: Chip>(store: &mut Store<C>) -> Result<(), Fail> {
    state_three(store)?;
    check_eq(
        slip_around(
            store,
            |store| close(store),
            |store, slip| tick(store.keep(slip)),
        )?,
        (5, Ok(()), Err(2)),
    )?;
    play(store, &[Mount(Ok(5)), Held(&[3, 5])])
}

#[test]
fn a_slip_spent_on_a_closed_store_leaves_its_number_held() -> Result<(), Fail> {
    let mut words = [0xFFFFu16; 2 * BLOCK_WORDS];
    on_store(Nor::new(&mut words), spend_when_closed)
}

// Whether open is granted, or its number; a slip is spent by keep.
fn opens<C: Chip>(store: &mut Store<C>) -> Result<(), u8> {
    let slip = numbered(store.open())?;
    let _ = store.keep(slip);
    Ok(())
}

fn refused_opens<C: Chip>(store: &mut Store<C>) -> Result<(), Fail> {
    check_eq(opens(store), Err(2))?;
    play(store, &[Format(b"", Ok(1))])?;
    for state in 2..10u32 {
        play(store, &[Freeze(Ok(state))])?;
    }
    check_eq(opens(store), Err(10))?;
    play(
        store,
        &[Held(&[2, 3, 4, 5, 6, 7, 8, 9]), Release(9, Ok(10))],
    )?;
    check_eq(opens(store), Ok(()))?;
    play(store, &[Held(&[2, 3, 4, 5, 6, 7, 8]), Freeze(Ok(13))])
}

#[test]
fn a_refused_open_gives_no_slip() -> Result<(), Fail> {
    let mut words = [0xFFFFu16; 2 * BLOCK_WORDS];
    on_store(Nor::new(&mut words), refused_opens)
}
