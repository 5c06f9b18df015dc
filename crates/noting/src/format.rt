// What memory has of a freshly formatted chip.
ghost use Rattle.std.specs.Prelude.{◌≡◌, ℕ, List, length};
ghost use Rattle.chip.specs.Pages.{Page};
ghost use Rattle.limits.specs.Values.{label_of};
ghost use Rattle.noting.specs.Fresh.{no_records, no_pages, IsFresh, Formatted, FreshlyRead};

use crate::register_record;
use chip::{BlockNumber, PageNumber};
use limits::{Held, Label};
use tables::{Index, MOST_PAGES, NO_PAGE, Record, unused_record};

fn no_records() -> [Record; MOST_PAGES]
    ensures { result ≡ no_records }
{
    [unused_record(); MOST_PAGES]
}

fn no_pages() -> [u16; 2048]
    ensures { result ≡ no_pages }
{
    [NO_PAGE; 2048]
}

// Memory of a chip whose pages are all erased but one, which has the first register.
pub fn fresh_index(pages: usize, page: PageNumber, spare: BlockNumber, label: Label) -> Index
    ensures memory { IsFresh pages page.0 spare label result }
    ensures reads { (blocks per : ℕ) (chip : List Page) → length chip ≡ pages → Formatted blocks per chip page.0 spare.0 (label_of label) → FreshlyRead blocks per chip (label_of label) result }
{
    let mut ix = Index {
        records: no_records(),
        pages: pages.min(MOST_PAGES),
        map: no_pages(),
        clock: 1,
        newest: 1,
        held: Held::empty(),
        label,
        spare,
    };
    ix.put(page.0 as usize, register_record(1));
    ix
}
