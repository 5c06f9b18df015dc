// The page of each sector's youngest version.
ghost use Rattle.std.specs.Prelude.{◌≡◌, ℕ, ◌<◌, length, slice_index};
ghost use Rattle.mounting.specs.Entries.{Entry};

use crate::tags::{Tags, version_of};
use tables::{MOST_PAGES, NO_PAGE, Record};

// The sectors that a store has.
const SECTORS: usize = 2048;

// The map of pages with these tags and records.
pub(crate) fn sector_map(tags: Tags, records: &[Record; MOST_PAGES]) -> [u16; SECTORS]
    ensures wide { length result ≡ 2048 }
    ensures entries { (s : ℕ) → s < 2048 → Entry tags.entry.all.now records.now (length tags.entry.all.now) s (slice_index result s) }
{
    let mut map = [NO_PAGE; SECTORS];
    for (i, tag) in tags.all.iter().enumerate() {
        // In two tests: where one of the two fails, a proof does not learn which.
        if let Some(version) = version_of(tag) {
            if records[i].link == 0 {
                map[usize::from(version.sector.number)] = i as u16;
            }
        }
    }
    map
}
