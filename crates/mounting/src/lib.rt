// Mounts a chip: from its pages to the tables of an open store.
#![tactic(auto)]

ghost use Rattle.std.specs.Prelude.{◌≡◌, ◌≤◌, IfOk, if◌then◌else◌};
ghost use Rattle.readings.specs.Sayings.{sayings};
ghost use Rattle.readings.specs.Mount.{plain, is_store, mount_verdict};
ghost use Rattle.tables.specs.Tells.{Tells};
ghost use Rattle.mounting.specs.Mounted.{Scanned, verdict_in};

mod births;
mod blocks;
mod keys;
mod records;
mod sectors;
mod sorted;
mod tags;

use births::births_differ;
use blocks::erased_block;
use chip::Chip;
use layout::Tag;
use limits::Register;
use records::records_of;
use refusals::Refusal;
use scan::scan;
use sectors::sector_map;
use tables::{Index, MOST_PAGES, needed_count};
use tags::{Tags, clock};

// The tables of a chip whose pages are all good, if it has what a store leaves.
fn index_of<C: Chip>(chip: &C, tags: Tags, register: Register) -> Result<Index, Refusal>
    requires scanned { Scanned (C.Chip.pages chip.now) tags.all.now register }
    requires some { 2 ≤ C.Chip.blocks chip.now }
    ensures verdict { verdict_in result ≡ (if is_store (C.Chip.blocks chip.now) C.Chip.per (sayings (C.Chip.pages chip.now)) then plain 0 else plain 6) }
    ensures tells { IfOk result (Tells (C.Chip.blocks chip.now) C.Chip.per (C.Chip.pages chip.now)) }
{
    let blocks = chip.size();
    let per = C::block_pages();
    if !births_differ(tags) {
        return Err(Refusal::NotAStore);
    }
    let spare = erased_block(tags, per).ok_or(Refusal::NotAStore)?;
    let records = records_of(tags);
    let needed = needed_count(&records[..tags.all.len()], register.held.as_slice());
    if (blocks - 1) * per - 2 < needed {
        return Err(Refusal::NotAStore);
    }
    let map = sector_map(tags, &records);
    Ok(Index {
        records,
        pages: tags.all.len(),
        map,
        clock: clock(tags.all),
        newest: register.birth.number,
        held: register.held,
        label: register.label,
        spare,
    })
}

// Reads each page of the chip once. Answers the tables of the store on it, or why there is none.
pub fn mount_index<C: Chip>(chip: &C) -> Result<Index, Refusal>
    ensures verdict { verdict_in result ≡ mount_verdict (C.Chip.blocks chip.now) C.Chip.per (C.Chip.pages chip.now) }
    ensures tells { IfOk result (Tells (C.Chip.blocks chip.now) C.Chip.per (C.Chip.pages chip.now)) }
{
    let blocks = chip.size();
    let per = C::block_pages();
    if blocks < 2 || blocks * per > MOST_PAGES {
        return Err(Refusal::ChipSize);
    }
    let mut table = [Tag::Erased; MOST_PAGES];
    let register = scan(chip, &mut table)?.ok_or(Refusal::NotAStore)?;
    let tags = Tags {
        all: &table[..blocks * per],
    };
    index_of(chip, tags, register)
}
