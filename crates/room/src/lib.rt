// Room for one more page: an erased page, and the block to clean where there is none.
// Chip and index are lent apart: a struct of both would be made anew at each call, and could not say what stays.
#![tactic(auto)]

ghost use Rattle.std.specs.Prelude.{◌≡◌, ◌+◌, ◌*◌, Some, None};
ghost use Rattle.std.specs.List.{list_any, range_with_len};
ghost use Rattle.moving.specs.Sound.{lasting};
ghost use Rattle.room.specs.Choose.{page_stale, stale_of, Chosen, is_open, first_free, page_later, MakesRoom, CleansBlock, Purges};

use chip::{BlockNumber, Chip, ChipFault, PageNumber};
use moving::{page_stays, relocate};
use std::ops::Range;
use tables::{Index, Kind};

// Whether the page is programmed and not to stay.
fn is_stale(ix: &Index, page: usize, limit: u32) -> bool
    ensures { result ≡ page_stale ix.now limit page }
{
    ix.at(page).kind != Kind::Erased && !page_stays(ix, page, limit)
}

// Whether the page is erased and outside the spare block.
fn is_open<C: Chip>(ix: &Index, page: PageNumber) -> bool
    ensures { result ≡ is_open ix.now C.Chip.per page }
{
    let (block, _) = C::split(page);
    block != ix.spare && ix.at(page.0 as usize).kind == Kind::Erased
}

// The numbers of a block's pages.
fn pages_of<C: Chip>(block: BlockNumber) -> Range<usize>
    ensures start { result.start ≡ block.0 * C.Chip.per }
    ensures end { result.end ≡ block.0 * C.Chip.per + C.Chip.per }
{
    let per = C::block_pages();
    let from = block.0 as usize * per;
    from..from + per
}

// How many pages of a block are stale.
fn count_stale<C: Chip>(ix: &Index, block: BlockNumber, limit: u32) -> usize
    ensures { result ≡ stale_of ix.now limit C.Chip.per block.0 }
{
    pages_of::<C>(block)
        .filter(|page| is_stale(ix, *page, limit))
        .count()
}

// The block other than the spare one with the most stale pages, if one has any.
// By `max_by_key` over the blocks it was not proved that no block has more than the one chosen.
fn choose_victim<C: Chip>(chip: &C, ix: &Index, limit: u32) -> Option<BlockNumber>
    ensures { Chosen ix.now limit C.Chip.per (C.Chip.blocks chip.now) result }
{
    let mut best = None;
    let mut most = 0;
    for b in 0..chip.size() {
        let block = BlockNumber(b as u32);
        if block != ix.spare {
            let n = count_stale::<C>(ix, block, limit);
            if n > most {
                most = n;
                best = Some(block);
            }
        }
    }
    best
}

// The first erased page outside the spare block, if there is one.
fn find_erased<C: Chip>(ix: &Index) -> Option<PageNumber>
    ensures { result ≡ first_free ix.now C.Chip.per }
{
    (0..ix.pages)
        .map(|p| PageNumber(p as u32))
        .find(|page| is_open::<C>(ix, *page))
}

// Cleans the block with the most stale pages, and answers a page that is erased then; for a store
// that has no erased page outside the spare block.
fn clean_for_page<C: Chip>(
    chip: &mut C,
    ix: &mut Index,
    limit: u32,
) -> Result<PageNumber, ChipFault>
    ensures kept { C.Chip.kept chip.new ≡ C.Chip.kept chip.old }
    ensures same { C.Chip.blocks chip.new ≡ C.Chip.blocks chip.old }
    ensures lasting { lasting ix.new ≡ lasting ix.old }
    ensures makes { first_free ix.old C.Chip.per ≡ None → MakesRoom (C.Chip.blocks chip.old) C.Chip.per (C.Chip.pages chip.old) ix.old limit result (C.Chip.pages chip.new) ix.new }
{
    let victim = choose_victim(chip, ix, limit).ok_or(ChipFault::NotErased)?;
    relocate(chip, ix, victim, limit)?;
    find_erased::<C>(ix).ok_or(ChipFault::NotErased)
}

// An erased page outside the spare block; where there is none, the block with the most stale pages is
// cleaned first.
pub fn make_room<C: Chip>(chip: &mut C, ix: &mut Index, limit: u32) -> Result<PageNumber, ChipFault>
    ensures kept { C.Chip.kept chip.new ≡ C.Chip.kept chip.old }
    ensures same { C.Chip.blocks chip.new ≡ C.Chip.blocks chip.old }
    ensures lasting { lasting ix.new ≡ lasting ix.old }
    ensures makes { MakesRoom (C.Chip.blocks chip.old) C.Chip.per (C.Chip.pages chip.old) ix.old limit result (C.Chip.pages chip.new) ix.new }
{
    // (`map_or_else` would have the same two arms, the second first.)
    match find_erased::<C>(ix) {
        Some(page) => Ok(page),
        None => clean_for_page(chip, ix, limit),
    }
}

// Cleans the chosen block, and answers how many stale pages it had.
fn clean_chosen<C: Chip>(
    chip: &mut C,
    ix: &mut Index,
    victim: BlockNumber,
    limit: u32,
) -> Result<usize, ChipFault>
    ensures kept { C.Chip.kept chip.new ≡ C.Chip.kept chip.old }
    ensures same { C.Chip.blocks chip.new ≡ C.Chip.blocks chip.old }
    ensures lasting { lasting ix.new ≡ lasting ix.old }
    ensures cleans { Chosen ix.old limit C.Chip.per (C.Chip.blocks chip.old) (Some victim) → CleansBlock (C.Chip.blocks chip.old) C.Chip.per (C.Chip.pages chip.old) ix.old limit result (C.Chip.pages chip.new) ix.new }
{
    let lost = count_stale::<C>(ix, victim, limit);
    relocate(chip, ix, victim, limit)?;
    Ok(lost)
}

// Cleans the block with the most stale pages, and answers how many it had; 0 if there is no stale
// page, and then nothing changes.
pub fn clean_block<C: Chip>(chip: &mut C, ix: &mut Index, limit: u32) -> Result<usize, ChipFault>
    ensures kept { C.Chip.kept chip.new ≡ C.Chip.kept chip.old }
    ensures same { C.Chip.blocks chip.new ≡ C.Chip.blocks chip.old }
    ensures lasting { lasting ix.new ≡ lasting ix.old }
    ensures cleans { CleansBlock (C.Chip.blocks chip.old) C.Chip.per (C.Chip.pages chip.old) ix.old limit result (C.Chip.pages chip.new) ix.new }
{
    match choose_victim(chip, ix, limit) {
        Some(victim) => clean_chosen(chip, ix, victim, limit),
        None => Ok(0),
    }
}

// Whether a block has a version born after the limit.
fn has_later<C: Chip>(ix: &Index, block: BlockNumber, limit: u32) -> bool
    ensures { result ≡ list_any (page_later ix.now limit) (range_with_len (block.0 * C.Chip.per) C.Chip.per) }
{
    pages_of::<C>(block).any(|page| ix.at(page).is_born_within(limit, u32::MAX))
}

// Cleans each block that has a version born after the limit, so that none is left.
pub fn purge<C: Chip>(chip: &mut C, ix: &mut Index, limit: u32) -> Result<(), ChipFault>
    ensures kept { C.Chip.kept chip.new ≡ C.Chip.kept chip.old }
    ensures same { C.Chip.blocks chip.new ≡ C.Chip.blocks chip.old }
    ensures lasting { lasting ix.new ≡ lasting ix.old }
    ensures purged { Purges (C.Chip.blocks chip.old) C.Chip.per (C.Chip.pages chip.old) ix.old limit result (C.Chip.pages chip.new) ix.new }
{
    let blocks = chip.size();
    // Over numbers: the chip knows a block by nothing else.
    for b in 0..blocks {
        let block = BlockNumber(b as u32);
        if has_later::<C>(ix, block, limit) {
            relocate(chip, ix, block, limit)?;
        }
    }
    Ok(())
}
