// What a page is to the store.
#[derive(Clone, Copy, Debug, PartialEq, Eq)]
pub enum Kind {
    Erased,
    Data,
    Deletion,
    Register,
}

// Which kind a version is of.
#[derive(Clone, Copy, Debug, PartialEq, Eq)]
pub enum VersionKind {
    Data,
    Deletion,
}

// What the store remembers of a page, in 12 bytes. The link of a version is the birth of what replaced it,
// and 0 where nothing did. (An `Option` would make it 16 bytes, 8 KB more for a chip.)
#[derive(Clone, Copy, Debug, PartialEq, Eq)]
pub struct Record {
    pub birth: u32,
    pub link: u32,
    pub sector: u16,
    pub kind: Kind,
}
