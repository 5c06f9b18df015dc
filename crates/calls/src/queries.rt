// Calls that change nothing.
ghost use Rattle.std.specs.Prelude.{◌≡◌, false, [], length, MatchResult, ◌==◌};
ghost use Rattle.refusals.specs.declared.types.Refusal.TheVariants.{BufferLength};
ghost use Rattle.rules.specs.Calls.{granted, read, look, since, since_in, count, ask_held, ask_label};
ghost use Rattle.rules.specs.Told.{told, holding_value, since_value, count_value, size_value};
ghost use Rattle.calls.specs.Follows.{Tells};
ghost use Rattle.calls.specs.Holds.{born_of, fetched, Fills, Listed};

use crate::checks::{capacity_of, check_held, check_length, check_sector};
use crate::lookups::{data_in_state, present_data};
use chip::{Chip, PAGE_BYTES, PageNumber, SectorNumber};
use layout::DATA_BYTES;
use limits::Bounded;
use noting::needed_count;
use refusals::Refusal;
use rules::{Count, Holding, Tick};
use tables::Index;

// Fills the buffer with the data of a page, or with 00 where there is none.
fn fetch<C: Chip>(chip: &C, page: Option<PageNumber>, buffer: &mut [u8]) -> Holding
    requires { length buffer.old ≡ 512 }
    ensures holding { result ≡ fetched page }
    ensures buffer { Fills (C.Chip.pages chip.now) page buffer.new }
{
    match page {
        Some(page) => {
            let mut image = [0; PAGE_BYTES];
            let _ = chip.read(page, &mut image);
            buffer.copy_from_slice(&image[0..DATA_BYTES]);
            Holding::Data
        }
        None => {
            buffer.fill(0);
            Holding::Empty
        }
    }
}

// Fills the buffer with what a sector holds.
pub fn read<C: Chip>(
    chip: &C,
    ix: &Index,
    sector: SectorNumber,
    buffer: &mut [u8],
) -> Result<Holding, Refusal>
    ensures { Tells (read sector.0 buffer.old) (C.Chip.blocks chip.now) C.Chip.per (C.Chip.pages chip.now) ix.now (told holding_value buffer.new result) }
{
    let sector = check_sector(sector)?;
    check_length(buffer.len(), DATA_BYTES)?;
    Ok(fetch(chip, present_data(ix, sector), buffer))
}

// Fills the buffer with what a sector held in a state.
pub fn look<C: Chip>(
    chip: &C,
    ix: &Index,
    state: Tick,
    sector: SectorNumber,
    buffer: &mut [u8],
) -> Result<Holding, Refusal>
    ensures { Tells (look state.0 sector.0 buffer.old) (C.Chip.blocks chip.now) C.Chip.per (C.Chip.pages chip.now) ix.now (told holding_value buffer.new result) }
{
    let sector = check_sector(sector)?;
    check_length(buffer.len(), DATA_BYTES)?;
    check_held(ix, state)?;
    Ok(fetch(chip, data_in_state(ix, state, sector), buffer))
}

// The birth of the version on a page.
fn born(ix: &Index, page: Option<PageNumber>) -> Option<Tick>
    ensures { result ≡ born_of ix.now page }
{
    page.map(|page| Tick(ix.at(page.0 as usize).birth))
}

// The birth of what a sector holds, or nothing where it is empty.
pub fn since<C: Chip>(chip: &C, ix: &Index, sector: SectorNumber) -> Result<Option<Tick>, Refusal>
    ensures { Tells (since sector.0) (C.Chip.blocks chip.now) C.Chip.per (C.Chip.pages chip.now) ix.now (told since_value [] result) }
{
    let sector = check_sector(sector)?;
    Ok(born(ix, present_data(ix, sector)))
}

// The birth of what a sector held in a state, or nothing where it was empty.
pub fn since_in<C: Chip>(
    chip: &C,
    ix: &Index,
    state: Tick,
    sector: SectorNumber,
) -> Result<Option<Tick>, Refusal>
    ensures { Tells (since_in state.0 sector.0) (C.Chip.blocks chip.now) C.Chip.per (C.Chip.pages chip.now) ix.now (told since_value [] result) }
{
    let sector = check_sector(sector)?;
    check_held(ix, state)?;
    Ok(born(ix, data_in_state(ix, state, sector)))
}

// The needed versions and the capacity.
pub fn count<C: Chip>(chip: &C, ix: &Index) -> Count
    ensures { Tells count (C.Chip.blocks chip.now) C.Chip.per (C.Chip.pages chip.now) ix.now (granted (count_value result) []) }
{
    Count {
        needed: needed_count(ix),
        capacity: capacity_of(chip),
    }
}

// Fills the buffer with the items and zeros after them, and answers how many there are.
fn list<T: Copy + Default, const MOST: usize>(
    given: &Bounded<T, MOST>,
    zero: T,
    buffer: &mut [T],
) -> Result<usize, Refusal>
    requires { (T.is_infallible zero) × ((y : T) → T.is_clone zero y → y ≡ zero) }
    ensures { MatchResult result (λ n. Listed given.now zero buffer.old n buffer.new) (λ f. (f ≡ BufferLength) × ((length buffer.old == MOST) ≡ false) × (buffer.new ≡ buffer.old)) }
{
    check_length(buffer.len(), MOST)?;
    buffer.fill(zero);
    buffer[..given.len].copy_from_slice(given.as_slice());
    Ok(given.len)
}

// Fills the buffer with the held numbers and 0, and answers how many there are.
pub fn held<C: Chip>(chip: &C, ix: &Index, buffer: &mut [u32]) -> Result<usize, Refusal>
    ensures { Tells (ask_held buffer.old) (C.Chip.blocks chip.now) C.Chip.per (C.Chip.pages chip.now) ix.now (told size_value buffer.new result) }
{
    list(&ix.held, 0, buffer)
}

// Fills the buffer with the label and 00, and answers how long it is.
pub fn label<C: Chip>(chip: &C, ix: &Index, buffer: &mut [u8]) -> Result<usize, Refusal>
    ensures { Tells (ask_label buffer.old) (C.Chip.blocks chip.now) C.Chip.per (C.Chip.pages chip.now) ix.now (told size_value buffer.new result) }
{
    list(&ix.label, 0, buffer)
}
