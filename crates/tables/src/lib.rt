// The tables of an open store: a record for each page, and the page of each sector.
#![tactic(auto)]

ghost use Rattle.std.specs.Prelude.{◌≡◌, ◌≤◌, length, slice_index_or, slice_set};
ghost use Rattle.tables.specs.Records.{is_version, version_kind, held_between, is_needed, needed_count, is_born_within, unused, rest_of};

pub mod index;
pub mod types;

pub use index::{Index, MOST_PAGES, NO_PAGE};
pub use types::{Kind, Record, VersionKind};

impl Kind {
    pub fn is_version(self) -> bool
        ensures { result ≡ is_version self }
    {
        matches!(self, Kind::Data | Kind::Deletion)
    }
}

impl From<VersionKind> for Kind {
    ghost from_gives = { λ v k. k ≡ version_kind v };

    fn from(kind: VersionKind) -> Kind {
        match kind {
            VersionKind::Data => Kind::Data,
            VersionKind::Deletion => Kind::Deletion,
        }
    }
}

// Whether a held number is at or after `birth` and before `link`. (A link can be one more than any
// clock.)
pub fn is_held_between(held: &[u32], birth: u32, link: u64) -> bool
    ensures { result ≡ held_between held.now birth link }
{
    held.iter().any(|h| birth <= *h && u64::from(*h) < link)
}

impl Record {
    // Whether it is of a version that the present or a held number needs.
    pub fn is_needed(self, held: &[u32]) -> bool
        ensures { result ≡ is_needed held.now self }
    {
        self.kind.is_version()
            && (self.link == 0 || is_held_between(held, self.birth, u64::from(self.link)))
    }

    // Whether it is of a version born after one number, and at or before another.
    pub fn is_born_within(self, after: u32, upto: u32) -> bool
        ensures { result ≡ is_born_within after upto self }
    {
        self.kind.is_version() && after < self.birth && self.birth <= upto
    }
}

// How many of the records are needed.
pub fn needed_count(records: &[Record], held: &[u32]) -> usize
    ensures { result ≡ needed_count held.now records.now }
{
    records.iter().filter(|r| r.is_needed(held)).count()
}

// The record of an erased page.
pub fn unused_record() -> Record
    ensures { result ≡ unused }
{
    Record {
        birth: 0,
        link: 0,
        sector: 0,
        kind: Kind::Erased,
    }
}

impl Index {
    // The record of a page.
    pub fn at(&self, page: usize) -> Record
        ensures { result ≡ slice_index_or self.now.records page unused }
    {
        self.records.get(page).copied().unwrap_or(unused_record())
    }

    // Makes the record of a page another.
    pub fn put(&mut self, at: usize, to: Record)
        ensures records { self.new.records ≡ slice_set self.old.records at to }
        ensures rest { rest_of self.new ≡ rest_of self.old }
    {
        // A write through `get_mut` leaves no fact of the records.
        if at < MOST_PAGES {
            self.records[at] = to;
        }
    }
}
