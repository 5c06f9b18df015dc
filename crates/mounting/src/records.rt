// The records of pages, from their tags.
ghost use Rattle.std.specs.Prelude.{◌≡◌, length};
ghost use Rattle.mounting.specs.Tagged.{tag_saying, tag_sayings};
ghost use Rattle.mounting.specs.Keys.{keys as keys_of};
ghost use Rattle.mounting.specs.Recorded.{version_record, Recorded, RecordedAll, RecordedBy};

use crate::keys::{key_of, successor};
use crate::sorted::{Sorted, fill};
use crate::tags::{Tags, version_of};
use layout::Tag;
use limits::Version;
use tables::{Kind, MOST_PAGES, Record, unused_record};

fn version_record(kind: Kind, version: Version, link: Option<u32>) -> Record
    ensures { result ≡ version_record kind version link }
{
    Record {
        birth: version.birth.number,
        link: link.unwrap_or(0),
        sector: version.sector.number,
        kind,
    }
}

// The record of a page, linked by the keys of all versions.
fn record_of(tag: Tag, keys: Sorted) -> Record
    ensures { Recorded keys.entry.numbers.now (tag_saying tag) result }
{
    match tag {
        Tag::Erased => unused_record(),
        Tag::Data(version) => version_record(Kind::Data, version, successor(keys, version)),
        Tag::Deletion(version) => version_record(Kind::Deletion, version, successor(keys, version)),
        Tag::Register(birth) => Record {
            birth: birth.number,
            link: 0,
            sector: 0,
            kind: Kind::Register,
        },
    }
}

fn linked_records(tags: Tags, keys: Sorted) -> [Record; MOST_PAGES]
    ensures long { length result ≡ 2048 }
    ensures recorded { RecordedAll keys.entry.numbers.now (tag_sayings tags.entry.all.now) result }
{
    let mut records = [unused_record(); MOST_PAGES];
    for (i, tag) in tags.all.iter().enumerate() {
        records[i] = record_of(*tag, keys);
    }
    records
}

// The records of pages with these tags.
pub(crate) fn records_of(tags: Tags) -> [Record; MOST_PAGES]
    ensures long { length result ≡ 2048 }
    ensures recorded { RecordedBy (keys_of (tag_sayings tags.entry.all.now)) (tag_sayings tags.entry.all.now) result }
{
    let mut scratch = [0; MOST_PAGES];
    let n = fill(tags, |tag| version_of(tag).map(key_of), &mut scratch);
    linked_records(tags, Sorted::new(&mut scratch[..n]))
}
