// The tags of a chip's pages.
ghost use Rattle.std.specs.Prelude.{◌≡◌, ◌≤◌, max, fold, length};
ghost use Rattle.std.specs.List.{filter_map};
ghost use Rattle.mounting.specs.Tagged.{birth_in, version_in};

use layout::Tag;
use limits::Version;

// The tags of all pages of a chip, which are no more than a store can have.
#[derive(Clone, Copy)]
pub(crate) struct Tags<'a> {
    pub all: &'a [Tag],
    ghost few: { length all.now ≤ 2048 },
}

pub(crate) fn birth_of(tag: &Tag) -> Option<u32>
    ensures { result ≡ birth_in tag.now }
{
    match tag {
        Tag::Erased => None,
        Tag::Data(version) | Tag::Deletion(version) => Some(version.birth.number),
        Tag::Register(birth) => Some(birth.number),
    }
}

pub(crate) fn version_of(tag: &Tag) -> Option<Version>
    ensures { result ≡ version_in tag.now }
{
    match tag {
        Tag::Data(version) | Tag::Deletion(version) => Some(*version),
        Tag::Erased | Tag::Register(_) => None,
    }
}

// The greatest birth.
pub(crate) fn clock(tags: &[Tag]) -> u32
    ensures { result ≡ fold max 0 (filter_map birth_in tags.now) }
{
    tags.iter()
        .filter_map(birth_of)
        .fold(0, |latest, birth| latest.max(birth))
}
