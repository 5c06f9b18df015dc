// The last two ticks of the clock.
use chip::Chip;
use nor::{BLOCK_WORDS, Nor};
use refusals::Refusal;
use rules::Tick;
use std::test::Fail;
use store::{Slip, Store};
use test_hands::Step::*;
use test_hands::*;

const LAST: u32 = 4294967294;

fn craft<C: Chip>(chip: &mut C, held: &[u32]) -> Result<(), Fail> {
    put(chip, 0, &data_page(1, 2, 65)?)?;
    put(chip, 1, &register_page(LAST - 1, held)?)
}

#[test]
fn the_last_tick_is_given_once() -> Result<(), Fail> {
    let mut words = [0xFFFFu16; 2 * BLOCK_WORDS];
    let mut chip = Nor::new(&mut words);
    craft(&mut chip, &[5])?;
    play_on(
        chip,
        &[
            Mount(Ok(LAST - 1)),
            Write(1, 66, Ok(LAST)),
            Write(1, 67, Err(11)),
            Delete(1, Err(11)),
            Delete(9, Ok(LAST)),
            Freeze(Err(11)),
            Release(5, Err(11)),
            Release(6, Err(9)),
            Revert(5, Err(11)),
            Revert(6, Err(9)),
            Clean(Ok(0)),
            Read(1, 66),
            Look(5, 1, 65),
            Held(&[5]),
            Close(Ok(())),
            Mount(Ok(LAST)),
            Read(1, 66),
            Held(&[5]),
        ],
    )
}

// Eight held numbers are told before the clock, and the clock before the room: six versions fill it.
#[test]
fn the_clock_comes_after_the_held_numbers_and_before_the_room() -> Result<(), Fail> {
    let mut words = [0xFFFFu16; 2 * BLOCK_WORDS];
    let mut chip = Nor::new(&mut words);
    craft(&mut chip, &[2, 3, 4, 5, 6, 7, 8, 9])?;
    put(&mut chip, 2, &data_page(2, 9, 66)?)?;
    put(&mut chip, 3, &data_page(2, 10, 67)?)?;
    put(&mut chip, 4, &data_page(3, 11, 68)?)?;
    put(&mut chip, 5, &data_page(4, 12, 69)?)?;
    put(&mut chip, 6, &deletion_page(1, 13)?)?;
    play_on(
        chip,
        &[
            Mount(Ok(LAST - 1)),
            Count(Ok((6, 6))),
            Freeze(Err(10)),
            Write(9, 65, Err(12)),
            Write(3, 70, Ok(LAST)),
            Freeze(Err(10)),
            Write(9, 65, Err(11)),
            Write(2048, 65, Err(7)),
            Release(1, Err(9)),
            Release(7, Err(11)),
            Held(&[2, 3, 4, 5, 6, 7, 8, 9]),
            Clean(Ok(1)),
            Clean(Ok(0)),
            Look(2, 1, 65),
            Look(9, 2, 66),
            ReadEmpty(1),
            Read(2, 67),
            Read(3, 70),
        ],
    )
}

// A slip of the number 5, from another store.
fn slip_of_five<C: Chip>(store: &mut Store<C>) -> Result<Slip, Fail> {
    play(
        store,
        &[
            Format(b"", Ok(1)),
            Freeze(Ok(2)),
            Freeze(Ok(3)),
            Freeze(Ok(4)),
        ],
    )?;
    Ok(store.open()?)
}

// How a slip is spent.
#[derive(Clone, Copy)]
enum Spending {
    Keep,
    Back,
}

fn spend<C: Chip>(store: &mut Store<C>, slip: Slip, by: Spending) -> Result<Tick, Refusal> {
    match by {
        Spending::Keep => store.keep(slip),
        Spending::Back => store.back(slip),
    }
}

fn spend_at_the_end<A: Chip, B: Chip>(
    store: &mut Store<A>,
    other: &mut Store<B>,
    by: Spending,
) -> Result<(), Fail> {
    play(store, &[Mount(Ok(LAST - 1)), Write(1, 66, Ok(LAST))])?;
    let slip = slip_of_five(other)?;
    let number = slip.number().0;
    check_eq((number, tick(spend(store, slip, by))), (5, Err(11)))?;
    play(
        store,
        &[
            Held(&[5]),
            Read(1, 66),
            Close(Ok(())),
            Mount(Ok(LAST)),
            Held(&[5]),
        ],
    )
}

fn slip_at_the_end(by: Spending) -> Result<(), Fail> {
    let mut words = [0xFFFFu16; 2 * BLOCK_WORDS];
    let mut others = [0xFFFFu16; 2 * BLOCK_WORDS];
    let mut chip = Nor::new(&mut words);
    craft(&mut chip, &[5])?;
    let mut store = Store::new(chip);
    let mut other = Store::new(Nor::new(&mut others));
    let end = spend_at_the_end(&mut store, &mut other, by);
    let _ = store.unmount();
    let _ = other.unmount();
    end
}

#[test]
fn a_slip_refused_by_the_clock_is_spent_and_its_number_stays() -> Result<(), Fail> {
    slip_at_the_end(Spending::Keep)?;
    slip_at_the_end(Spending::Back)
}
