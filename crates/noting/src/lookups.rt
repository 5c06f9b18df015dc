// Where the versions of a sector stand.
ghost use Rattle.std.specs.Prelude.{◌≡◌, ℕ, true, List};
ghost use Rattle.chip.specs.Pages.{Page};
ghost use Rattle.limits.specs.Values.{held_of};
ghost use Rattle.readings.specs.Versions.{has};
ghost use Rattle.readings.specs.Sayings.{sayings};
ghost use Rattle.readings.specs.Reading.{reading};
ghost use Rattle.readings.specs.Changes.{present, in_state};
ghost use Rattle.noting.specs.Consistent.{Consistent};
ghost use Rattle.noting.specs.Lookups.{Shows, present_page, is_of, page_in_state};

use chip::PageNumber;
use limits::Sector;
use tables::{Index, Record};

// The page of a sector's youngest version.
pub fn present_page(ix: &Index, sector: Sector) -> Option<PageNumber>
    ensures page { result ≡ present_page ix.now sector.number }
    ensures shows { (blocks per : ℕ) (pages : List Page) → Consistent blocks per pages ix.now → Shows pages result (present (reading (sayings pages)) sector.number) }
{
    let page = ix.map[usize::from(sector.number)];
    (usize::from(page) < ix.pages).then_some(PageNumber(u32::from(page)))
}

// Whether a page is a version of the sector that was born at or before `number`.
fn is_version_of(saved: Record, number: u32, sector: Sector) -> bool
    ensures { result ≡ is_of number sector.number saved }
{
    saved.kind.is_version() && saved.sector == sector.number && saved.birth <= number
}

// The page of a sector's youngest version that was born at or before a held number.
pub fn page_in_state(ix: &Index, number: u32, sector: Sector) -> Option<PageNumber>
    ensures page { result ≡ page_in_state ix.now number sector.number }
    ensures shows { (blocks per : ℕ) (pages : List Page) → Consistent blocks per pages ix.now → has number (held_of ix.now.held) ≡ true → Shows pages result (in_state (reading (sayings pages)) number sector.number) }
{
    // (By number and with two variables: over the slice it takes half as long again, and with the two as an
    // `Option` of a pair, asked at each record, twice as long.)
    let mut found = None;
    let mut birth = 0;
    for i in 0..ix.pages {
        let saved = ix.at(i);
        if is_version_of(saved, number, sector) && birth < saved.birth {
            found = Some(PageNumber(i as u32));
            birth = saved.birth;
        }
    }
    found
}
