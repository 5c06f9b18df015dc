// Calls that change the store.
ghost use Rattle.std.specs.Prelude.{◌≡◌, suc, ◌<◌, ◌≤◌, [], ◌∷◌, ◌++◌, length, MatchResult};
ghost use Rattle.refusals.specs.declared.types.Refusal.TheVariants.{TooManyHeld};
ghost use Rattle.limits.specs.Values.{held_of};
ghost use Rattle.rules.specs.Calls.{write, delete, freeze, open_slip, release, keep_slip, revert, back_slip};
ghost use Rattle.rules.specs.Told.{told, tick_value, size_value};
ghost use Rattle.calls.specs.Follows.{Follows, Cleans};
ghost use Rattle.calls.specs.Changes.{clock_or};

use crate::checks::{block_of, check_held, check_room, check_sector, check_ticks};
use crate::lookups::is_empty;
use changing::{add_data, add_deletion, add_register, clean as sweep, go_back};
use chip::{Chip, ChipFault, SectorNumber};
use limits::{Held, LAST_BIRTH};
use noting::{hold_below, hold_number, release_number};
use refusals::Refusal;
use rules::Tick;
use tables::Index;

// The clock after a change. (The chip of an open store refuses no change.)
fn clock_after(made: Result<(), ChipFault>, ix: &Index) -> Result<Tick, Refusal>
    ensures { result ≡ clock_or made ix.now.clock }
{
    made?;
    Ok(Tick(ix.clock))
}

// Adds a version of 512 bytes.
pub fn write<C: Chip>(
    chip: &mut C,
    ix: &mut Index,
    sector: SectorNumber,
    given: &[u8],
) -> Result<Tick, Refusal>
    ensures kept { C.Chip.kept chip.new ≡ C.Chip.kept chip.old }
    ensures same { C.Chip.blocks chip.new ≡ C.Chip.blocks chip.old }
    ensures follows { Follows (write sector.0 given.now) (C.Chip.blocks chip.old) C.Chip.per (C.Chip.pages chip.old) ix.old (told tick_value [] result) (C.Chip.pages chip.new) ix.new }
{
    let sector = check_sector(sector)?;
    let block = block_of(given)?;
    check_ticks(ix)?;
    check_room(chip, ix, sector)?;
    let made = add_data(chip, ix, sector, &block);
    clock_after(made, ix)
}

// Adds a deletion; the delete of an empty sector changes nothing.
pub fn delete<C: Chip>(chip: &mut C, ix: &mut Index, sector: SectorNumber) -> Result<Tick, Refusal>
    ensures kept { C.Chip.kept chip.new ≡ C.Chip.kept chip.old }
    ensures same { C.Chip.blocks chip.new ≡ C.Chip.blocks chip.old }
    ensures follows { Follows (delete sector.0) (C.Chip.blocks chip.old) C.Chip.per (C.Chip.pages chip.old) ix.old (told tick_value [] result) (C.Chip.pages chip.new) ix.new }
{
    let sector = check_sector(sector)?;
    if is_empty(ix, sector) {
        return Ok(Tick(ix.clock));
    }
    check_ticks(ix)?;
    check_room(chip, ix, sector)?;
    let made = add_deletion(chip, ix, sector);
    clock_after(made, ix)
}

// The held numbers and the next tick, unless there are eight already.
fn hold_next(ix: &Index) -> Result<Held, Refusal>
    ensures { MatchResult result (λ h. (length (held_of ix.now.held) < 8) × ((ix.now.clock < 4294967294 → held_of h ≡ held_of ix.now.held ++ (suc ix.now.clock ∷ [])))) (λ f. (f ≡ TooManyHeld) × (8 ≤ length (held_of ix.now.held))) }
{
    hold_number(&ix.held, ix.clock.min(LAST_BIRTH - 1) + 1).ok_or(Refusal::TooManyHeld)
}

// Holds the next tick; that of an open is the same.
pub fn freeze<C: Chip>(chip: &mut C, ix: &mut Index) -> Result<Tick, Refusal>
    ensures kept { C.Chip.kept chip.new ≡ C.Chip.kept chip.old }
    ensures same { C.Chip.blocks chip.new ≡ C.Chip.blocks chip.old }
    ensures follows { Follows freeze (C.Chip.blocks chip.old) C.Chip.per (C.Chip.pages chip.old) ix.old (told tick_value [] result) (C.Chip.pages chip.new) ix.new }
    ensures opens { Follows open_slip (C.Chip.blocks chip.old) C.Chip.per (C.Chip.pages chip.old) ix.old (told tick_value [] result) (C.Chip.pages chip.new) ix.new }
{
    let held = hold_next(ix)?;
    check_ticks(ix)?;
    let made = add_register(chip, ix, held);
    clock_after(made, ix)
}

// Holds a number no more; that of a keep is the same.
pub fn release<C: Chip>(chip: &mut C, ix: &mut Index, state: Tick) -> Result<Tick, Refusal>
    ensures kept { C.Chip.kept chip.new ≡ C.Chip.kept chip.old }
    ensures same { C.Chip.blocks chip.new ≡ C.Chip.blocks chip.old }
    ensures follows { Follows (release state.0) (C.Chip.blocks chip.old) C.Chip.per (C.Chip.pages chip.old) ix.old (told tick_value [] result) (C.Chip.pages chip.new) ix.new }
    ensures keeps { Follows (keep_slip state.0) (C.Chip.blocks chip.old) C.Chip.per (C.Chip.pages chip.old) ix.old (told tick_value [] result) (C.Chip.pages chip.new) ix.new }
{
    check_held(ix, state)?;
    check_ticks(ix)?;
    let held = release_number(&ix.held, state.0);
    let made = add_register(chip, ix, held);
    clock_after(made, ix)
}

// Goes back to a state: the numbers that are held further are those below the bound.
fn turn<C: Chip>(chip: &mut C, ix: &mut Index, state: Tick, bound: u64) -> Result<Tick, Refusal>
    ensures kept { C.Chip.kept chip.new ≡ C.Chip.kept chip.old }
    ensures same { C.Chip.blocks chip.new ≡ C.Chip.blocks chip.old }
    ensures reverts { bound ≡ suc state.0 → Follows (revert state.0) (C.Chip.blocks chip.old) C.Chip.per (C.Chip.pages chip.old) ix.old (told tick_value [] result) (C.Chip.pages chip.new) ix.new }
    ensures backs { bound ≡ state.0 → Follows (back_slip state.0) (C.Chip.blocks chip.old) C.Chip.per (C.Chip.pages chip.old) ix.old (told tick_value [] result) (C.Chip.pages chip.new) ix.new }
{
    check_held(ix, state)?;
    check_ticks(ix)?;
    let held = hold_below(&ix.held, bound);
    let made = go_back(chip, ix, state.0, held);
    clock_after(made, ix)
}

// Versions born after the state leave, and so do the numbers of later states.
pub fn revert<C: Chip>(chip: &mut C, ix: &mut Index, state: Tick) -> Result<Tick, Refusal>
    ensures kept { C.Chip.kept chip.new ≡ C.Chip.kept chip.old }
    ensures same { C.Chip.blocks chip.new ≡ C.Chip.blocks chip.old }
    ensures follows { Follows (revert state.0) (C.Chip.blocks chip.old) C.Chip.per (C.Chip.pages chip.old) ix.old (told tick_value [] result) (C.Chip.pages chip.new) ix.new }
{
    turn(chip, ix, state, u64::from(state.0) + 1)
}

// A revert after which the state's own number is held no more.
pub fn back<C: Chip>(chip: &mut C, ix: &mut Index, state: Tick) -> Result<Tick, Refusal>
    ensures kept { C.Chip.kept chip.new ≡ C.Chip.kept chip.old }
    ensures same { C.Chip.blocks chip.new ≡ C.Chip.blocks chip.old }
    ensures follows { Follows (back_slip state.0) (C.Chip.blocks chip.old) C.Chip.per (C.Chip.pages chip.old) ix.old (told tick_value [] result) (C.Chip.pages chip.new) ix.new }
{
    turn(chip, ix, state, u64::from(state.0))
}

// Cleans one block, if a page is stale, and answers how many stale pages the chip lost.
pub fn clean<C: Chip>(chip: &mut C, ix: &mut Index) -> Result<usize, Refusal>
    ensures kept { C.Chip.kept chip.new ≡ C.Chip.kept chip.old }
    ensures same { C.Chip.blocks chip.new ≡ C.Chip.blocks chip.old }
    ensures cleans { Cleans (C.Chip.blocks chip.old) C.Chip.per (C.Chip.pages chip.old) ix.old (told size_value [] result) (C.Chip.pages chip.new) ix.new }
{
    Ok(sweep(chip, ix)?)
}
