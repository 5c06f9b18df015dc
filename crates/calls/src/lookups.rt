// The pages with the data of sectors.
ghost use Rattle.std.specs.Prelude.{◌≡◌, ℕ, true, List};
ghost use Rattle.chip.specs.Pages.{Page};
ghost use Rattle.limits.specs.Values.{held_of};
ghost use Rattle.readings.specs.Versions.{has};
ghost use Rattle.readings.specs.Sayings.{sayings};
ghost use Rattle.readings.specs.Reading.{reading};
ghost use Rattle.readings.specs.Changes.{present, in_state};
ghost use Rattle.keeping.specs.Opened.{Opened};
ghost use Rattle.rules.specs.Calls.{shown, is_none};
ghost use Rattle.calls.specs.Holds.{Holds, data_page};

use chip::PageNumber;
use limits::Sector;
use noting::{page_in_state, present_page};
use rules::Tick;
use tables::{Index, Kind};

// The page of a version, if the version holds data.
fn data_of(ix: &Index, found: Option<PageNumber>) -> Option<PageNumber>
    ensures { result ≡ data_page ix.now found }
{
    found.filter(|page| ix.at(page.0 as usize).kind == Kind::Data)
}

// The page with what a sector holds.
pub(crate) fn present_data(ix: &Index, sector: Sector) -> Option<PageNumber>
    ensures { (blocks per : ℕ) (pages : List Page) → Opened blocks per pages ix.now → Holds pages ix.now (present (reading (sayings pages)) sector.number) result }
{
    data_of(ix, present_page(ix, sector))
}

// Whether a sector reads empty.
pub(crate) fn is_empty(ix: &Index, sector: Sector) -> bool
    ensures { (blocks per : ℕ) (pages : List Page) → Opened blocks per pages ix.now → is_none (shown (present (reading (sayings pages)) sector.number)) ≡ result }
{
    present_data(ix, sector).is_none()
}

// The page with what a sector held in a state.
pub(crate) fn data_in_state(ix: &Index, state: Tick, sector: Sector) -> Option<PageNumber>
    ensures { (blocks per : ℕ) (pages : List Page) → Opened blocks per pages ix.now → has state.0 (held_of ix.now.held) ≡ true → Holds pages ix.now (in_state (reading (sayings pages)) state.0 sector.number) result }
{
    data_of(ix, page_in_state(ix, state.0, sector))
}
