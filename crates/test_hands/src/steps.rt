// Lists of calls, each with what it must answer.
use crate::checks::check_eq_at;
use crate::{
    Filled, clean, close, count, delete, format, freeze, held, label, look, mount, read, release,
    revert, sector_of, since, since_in, write,
};
use chip::Chip;
use rules::Holding;
use std::array;
use std::fmt::Debug;
use std::test::Fail;
use store::Store;

// A call with its arguments, and then what it answers. As a closure a step would be
// `&|at, store| agree(at, write(store, 5, 65), Ok(2))` in place of `Write(5, 65, Ok(2))`.
#[derive(Clone, Copy)]
pub enum Step<'a> {
    Format(&'a [u8], Result<u32, u8>),
    Mount(Result<u32, u8>),
    Close(Result<(), u8>),
    Write(u32, u8, Result<u32, u8>),
    Delete(u32, Result<u32, u8>),
    Freeze(Result<u32, u8>),
    Release(u32, Result<u32, u8>),
    Revert(u32, Result<u32, u8>),
    Clean(Result<usize, u8>),
    // The birth, if the sector is not empty.
    Since(u32, Result<Option<u32>, u8>),
    SinceIn(u32, u32, Result<Option<u32>, u8>),
    // Needed versions and capacity.
    Count(Result<(usize, usize), u8>),
    // The byte throughout, as it was written.
    Read(u32, u8),
    ReadEmpty(u32),
    Look(u32, u32, u8),
    LookEmpty(u32, u32),
    Held(&'a [u32]),
    Label(&'a [u8]),
}

// The step answered as it must.
fn agree<T: PartialEq + Debug + Drop>(at: usize, found: T, wanted: T) -> Result<(), Fail> {
    check_eq_at(format_args!("step {at} of the list: "), found, wanted)
}

// The sector that was written with a byte.
fn data_of(byte: u8) -> Filled<Holding, [u8; 512]> {
    (Ok(Holding::Data), sector_of(byte))
}

fn empty() -> Filled<Holding, [u8; 512]> {
    (Ok(Holding::Empty), [0; 512])
}

// A list's length, and the list with zeros after it.
fn padded<T: Copy + Default, const N: usize>(list: &[T]) -> Filled<usize, [T; N]> {
    let items = array::from_fn(|i| list.get(i).copied().unwrap_or_default());
    (Ok(list.len()), items)
}

// Takes a step, and compares what the store answers. Each buffer is full of sevens before its call.
fn take<C: Chip>(store: &mut Store<C>, at: usize, step: Step<'_>) -> Result<(), Fail> {
    match step {
        Step::Format(label, answer) => agree(at, format(store, label), answer),
        Step::Mount(answer) => agree(at, mount(store), answer),
        Step::Close(answer) => agree(at, close(store), answer),
        Step::Write(sector, byte, answer) => agree(at, write(store, sector, byte), answer),
        Step::Delete(sector, answer) => agree(at, delete(store, sector), answer),
        Step::Freeze(answer) => agree(at, freeze(store), answer),
        Step::Release(state, answer) => agree(at, release(store, state), answer),
        Step::Revert(state, answer) => agree(at, revert(store, state), answer),
        Step::Clean(answer) => agree(at, clean(store), answer),
        Step::Since(sector, answer) => agree(at, since(store, sector), answer),
        Step::SinceIn(state, sector, answer) => agree(at, since_in(store, state, sector), answer),
        Step::Count(answer) => agree(at, count(store), answer),
        Step::Read(sector, byte) => agree(at, read(store, sector, [7; 512]), data_of(byte)),
        Step::ReadEmpty(sector) => agree(at, read(store, sector, [7; 512]), empty()),
        Step::Look(state, sector, byte) => {
            agree(at, look(store, state, sector, [7; 512]), data_of(byte))
        }
        Step::LookEmpty(state, sector) => agree(at, look(store, state, sector, [7; 512]), empty()),
        Step::Held(list) => agree(at, held(store, [7; 8]), padded(list)),
        Step::Label(list) => agree(at, label(store, [7; 32]), padded(list)),
    }
}

pub fn play<C: Chip>(store: &mut Store<C>, steps: &[Step<'_>]) -> Result<(), Fail> {
    for (at, step) in steps.iter().enumerate() {
        take(store, at, *step)?;
    }
    Ok(())
}

// Plays the steps on a closed store over the chip, which is let go afterwards.
pub fn play_on<C: Chip + Drop>(chip: C, steps: &[Step<'_>]) -> Result<(), Fail> {
    let mut store = Store::new(chip);
    let end = play(&mut store, steps);
    let _ = store.unmount();
    end
}
