// How many versions are needed, and how many after one more.
ghost use Rattle.std.specs.Prelude.{◌≡◌, ℕ, ◌≤◌, List, length};
ghost use Rattle.chip.specs.Pages.{Page};
ghost use Rattle.readings.specs.Versions.{Content, add};
ghost use Rattle.readings.specs.Sayings.{sayings};
ghost use Rattle.readings.specs.Reading.{reading};
ghost use Rattle.noting.specs.Consistent.{Consistent};
ghost use Rattle.noting.specs.Counting.{needed_count, needed_after};

use crate::lookups::present_page;
use limits::Sector;
use tables::{Index, is_held_between, needed_count as count_needed};

// The number of needed versions.
pub fn needed_count(ix: &Index) -> usize
    ensures count { result ≡ needed_count ix.now }
    ensures few { result ≤ 2048 }
    ensures reads { (blocks per : ℕ) (pages : List Page) → Consistent blocks per pages ix.now → result ≡ length (reading (sayings pages)).versions }
{
    count_needed(&ix.records[..ix.pages], ix.held.as_slice())
}

// The number of needed versions once a version of the sector is written.
pub fn needed_after(ix: &Index, sector: Sector) -> usize
    ensures count { result ≡ needed_after ix.now sector.number }
    ensures reads { (blocks per : ℕ) (pages : List Page) (c : Content) → Consistent blocks per pages ix.now → result ≡ length (add (reading (sayings pages)) sector.number c).versions }
{
    let count = needed_count(ix);
    let Some(page) = present_page(ix, sector) else {
        return count + 1;
    };
    let replaced = ix.at(page.0 as usize);
    let next = u64::from(ix.clock) + 1;
    count + usize::from(is_held_between(ix.held.as_slice(), replaced.birth, next))
}
