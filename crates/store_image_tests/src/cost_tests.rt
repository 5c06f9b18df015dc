// How many reads, programs and erases of the chip a call costs.
use chip::Chip;
use nor::{BLOCK_WORDS, Nor};
use std::array;
use std::test::Fail;
use store::Store;
use test_chips::Counting;
use test_hands::Step::*;
use test_hands::*;

fn counts<C: Chip>(chip: &Counting<C>) -> [u32; 3] {
    [chip.reads(), chip.programs(), chip.erases()]
}

fn minus(counts: [u32; 3], before: [u32; 3]) -> [u32; 3] {
    array::from_fn(|i| counts[i].wrapping_sub(before[i]))
}

// The chip after the steps, made on a closed store over it.
fn played_on<C: Chip + Drop>(chip: C, steps: &[Step<'_>]) -> Result<C, Fail> {
    let mut store = Store::new(chip);
    let end = play(&mut store, steps);
    let chip = store.unmount();
    end.map(|()| chip)
}

// What mount and then the steps cost.
fn cost_of<C: Chip + Drop>(
    chip: Counting<C>,
    steps: &[Step<'_>],
) -> Result<(Counting<C>, [u32; 3]), Fail> {
    let before = counts(&chip);
    let mut store = Store::new(chip);
    let _ = store.mount();
    let end = play(&mut store, steps);
    let chip = store.unmount();
    end?;
    let cost = minus(counts(&chip), before);
    Ok((chip, cost))
}

// The cost of each step of a table on a mounted store of 16 pages, besides that of mount.
fn check_costs<C: Chip + Drop>(
    chip: Counting<C>,
    table: &[(Step<'_>, [u32; 3])],
) -> Result<(), Fail> {
    let (mut chip, mount) = cost_of(chip, &[])?;
    check(matches!(mount, [16 | 17, 0, 0]))?;
    for (step, wanted) in table {
        let (next, cost) = cost_of(chip, &[*step])?;
        chip = next;
        check_eq(minus(cost, mount), *wanted)?;
    }
    Ok(())
}

#[test]
fn queries_read_one_page_at_most_and_refusals_none() -> Result<(), Fail> {
    let mut words = [0xFFFFu16; 2 * BLOCK_WORDS];
    // Sector 1 and its state 3, then sectors 1 and 2 anew.
    let steps = [
        Format(b"", Ok(1)),
        Write(1, 65, Ok(2)),
        Freeze(Ok(3)),
        Write(1, 66, Ok(4)),
        Write(2, 67, Ok(5)),
    ];
    check_costs(
        played_on(Counting::new(Nor::new(&mut words)), &steps)?,
        &[
            (Read(1, 66), [1, 0, 0]),
            (Look(3, 1, 65), [1, 0, 0]),
            (ReadEmpty(9), [0, 0, 0]),
            (LookEmpty(3, 2), [0, 0, 0]),
            (Since(1, Ok(Some(4))), [0, 0, 0]),
            (SinceIn(3, 1, Ok(Some(2))), [0, 0, 0]),
            (Count(Ok((3, 6))), [0, 0, 0]),
            (Held(&[3]), [0, 0, 0]),
            (Label(b""), [0, 0, 0]),
            (Delete(9, Ok(5)), [0, 0, 0]),
            (Clean(Ok(1)), [4, 4, 1]),
            (Clean(Ok(0)), [0, 0, 0]),
            (Write(2048, 65, Err(7)), [0, 0, 0]),
            (Delete(2048, Err(7)), [0, 0, 0]),
            (Release(4, Err(9)), [0, 0, 0]),
            (Revert(4, Err(9)), [0, 0, 0]),
            (SinceIn(4, 1, Err(9)), [0, 0, 0]),
            (Format(b"", Err(1)), [0, 0, 0]),
            (Mount(Err(1)), [0, 0, 0]),
            (Close(Ok(())), [0, 0, 0]),
        ],
    )
}

#[test]
fn a_change_programs_one_page_where_there_is_room() -> Result<(), Fail> {
    let mut words = [0xFFFFu16; 2 * BLOCK_WORDS];
    let steps = [Format(b"", Ok(1))];
    check_costs(
        played_on(Counting::new(Nor::new(&mut words)), &steps)?,
        &[
            (Held(&[]), [0, 0, 0]),
            (Write(1, 65, Ok(2)), [0, 1, 0]),
            (Freeze(Ok(3)), [0, 1, 0]),
            (Held(&[3]), [0, 0, 0]),
            (Delete(1, Ok(4)), [0, 1, 0]),
            (Release(3, Ok(5)), [0, 1, 0]),
        ],
    )
}

// Seven pages are copied, and one is new.
#[test]
fn a_change_cleans_one_block_where_there_is_no_room() -> Result<(), Fail> {
    let mut words = [0xFFFFu16; 2 * BLOCK_WORDS];
    // Six needed versions, a register and a stale page fill a block of 8.
    let steps = [
        Format(b"", Ok(1)),
        Write(0, 65, Ok(2)),
        Write(1, 66, Ok(3)),
        Write(2, 67, Ok(4)),
        Write(3, 68, Ok(5)),
        Write(4, 69, Ok(6)),
        Write(5, 70, Ok(7)),
        Write(0, 71, Ok(8)),
    ];
    check_costs(
        played_on(Counting::new(Nor::new(&mut words)), &steps)?,
        &[
            (Write(0, 72, Ok(9)), [7, 8, 1]),
            (Write(6, 73, Err(12)), [0, 0, 0]),
            (Freeze(Ok(10)), [7, 8, 1]),
            (Held(&[10]), [0, 0, 0]),
            (Write(0, 73, Err(12)), [0, 0, 0]),
            (Release(10, Ok(11)), [7, 8, 1]),
            (Delete(0, Ok(12)), [7, 8, 1]),
            (Clean(Ok(1)), [7, 7, 1]),
            (Write(0, 74, Ok(13)), [0, 1, 0]),
        ],
    )
}
