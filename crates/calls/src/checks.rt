// The checks of the calls, one for each ground of refusal.
ghost use Rattle.std.specs.Prelude.{◌≡◌, ℕ, true, false, List, length, MatchResult, ◌==◌, nat_lt};
ghost use Rattle.limits.specs.Values.{held_of};
ghost use Rattle.readings.specs.Versions.{has};
ghost use Rattle.readings.specs.Mount.{capacity};
ghost use Rattle.noting.specs.Counting.{needed_after};
ghost use Rattle.refusals.specs.declared.types.Refusal.TheVariants.{NoSuchSector, BufferLength, NotHeld, OutOfTicks, Full};

use chip::{Chip, SectorNumber};
use layout::DATA_BYTES;
use limits::{LAST_BIRTH, Sector};
use noting::{is_held, needed_after};
use refusals::Refusal;
use rules::Tick;
use tables::Index;

pub(crate) fn refuse_if(test: bool, refusal: Refusal) -> Result<(), Refusal>
    ensures { MatchResult result (λ _. test ≡ false) (λ f. (f ≡ refusal) × (test ≡ true)) }
{
    if test { Err(refusal) } else { Ok(()) }
}

pub(crate) fn check_sector(sector: SectorNumber) -> Result<Sector, Refusal>
    ensures { MatchResult result (λ s. (s.number ≡ sector.0) × (nat_lt 2047 sector.0 ≡ false)) (λ f. (f ≡ NoSuchSector) × (nat_lt 2047 sector.0 ≡ true)) }
{
    Sector::new(sector).ok_or(Refusal::NoSuchSector)
}

pub(crate) fn check_length(given: usize, wanted: usize) -> Result<(), Refusal>
    ensures { MatchResult result (λ _. (given == wanted) ≡ true) (λ f. (f ≡ BufferLength) × ((given == wanted) ≡ false)) }
{
    refuse_if(given != wanted, Refusal::BufferLength)
}

// The bytes of a sector.
pub(crate) fn block_of(given: &[u8]) -> Result<[u8; DATA_BYTES], Refusal>
    ensures { MatchResult result (λ block. (block ≡ given.now) × ((length given.now == 512) ≡ true)) (λ f. (f ≡ BufferLength) × ((length given.now == 512) ≡ false)) }
{
    <[u8; DATA_BYTES]>::try_from(given).map_err(|_| Refusal::BufferLength)
}

pub(crate) fn check_held(ix: &Index, state: Tick) -> Result<(), Refusal>
    ensures { MatchResult result (λ _. has state.0 (held_of ix.now.held) ≡ true) (λ f. (f ≡ NotHeld) × (has state.0 (held_of ix.now.held) ≡ false)) }
{
    refuse_if(!is_held(&ix.held, state.0), Refusal::NotHeld)
}

// A tick is left.
pub(crate) fn check_ticks(ix: &Index) -> Result<(), Refusal>
    ensures { MatchResult result (λ _. (ix.now.clock == 4294967294) ≡ false) (λ f. (f ≡ OutOfTicks) × ((ix.now.clock == 4294967294) ≡ true)) }
{
    refuse_if(ix.clock == LAST_BIRTH, Refusal::OutOfTicks)
}

// The most versions that a store on the chip keeps.
pub(crate) fn capacity_of<C: Chip>(chip: &C) -> usize
    ensures { result ≡ capacity (C.Chip.blocks chip.now) C.Chip.per }
{
    (chip.size().saturating_sub(1) * C::block_pages()).saturating_sub(2)
}

// A version of the sector more fits.
pub(crate) fn check_room<C: Chip>(chip: &C, ix: &Index, sector: Sector) -> Result<(), Refusal>
    ensures { MatchResult result (λ _. nat_lt (capacity (C.Chip.blocks chip.now) C.Chip.per) (needed_after ix.now sector.number) ≡ false) (λ f. (f ≡ Full) × (nat_lt (capacity (C.Chip.blocks chip.now) C.Chip.per) (needed_after ix.now sector.number) ≡ true)) }
{
    refuse_if(capacity_of(chip) < needed_after(ix, sector), Refusal::Full)
}
