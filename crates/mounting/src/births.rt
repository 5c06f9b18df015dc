// The births of the programmed pages.
ghost use Rattle.std.specs.Prelude.{◌≡◌};
ghost use Rattle.readings.specs.Mount.{births, distinct};
ghost use Rattle.mounting.specs.Tagged.{tag_sayings};

use crate::sorted::{Sorted, fill};
use crate::tags::{Tags, birth_of};
use tables::MOST_PAGES;

// Whether no two programmed pages have the same birth.
pub(crate) fn births_differ(tags: Tags) -> bool
    ensures { result ≡ distinct (births (tag_sayings tags.entry.all.now)) }
{
    let mut scratch = [0; MOST_PAGES];
    let n = fill(tags, |tag| birth_of(tag).map(u64::from), &mut scratch);
    Sorted::new(&mut scratch[..n]).all_differ()
}
