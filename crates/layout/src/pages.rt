// What a page is, and why one is bad.
use limits::{Birth, Register, Version};

// The kind of a programmed page, with its byte in the tag.
#[derive(Clone, Copy, Debug, PartialEq, Eq)]
pub enum PageKind {
    Data = 1,
    Deletion = 2,
    Register = 3,
}

// A byte that stands for no kind.
#[derive(Clone, Copy, Debug, PartialEq, Eq)]
pub struct UnknownKind(pub u8);

// Why a page is bad, in the order of the checks.
#[derive(Clone, Copy, Debug, PartialEq, Eq)]
pub enum Cause {
    Tag,
    // A deletion's data.
    Deletion,
    // An offset or a length in the pairs of a register.
    Pairs,
    // The held numbers of a register.
    Held,
    // The bytes after a register's label.
    Tail,
}

// Why the data of a register are bad.
#[derive(Clone, Copy, Debug, PartialEq, Eq)]
pub enum RegisterFault {
    Pairs,
    Held,
    Tail,
}

// Kind, sector and birth of a good page.
#[derive(Clone, Copy, Debug, PartialEq, Eq)]
pub enum Tag {
    Erased,
    Data(Version),
    Deletion(Version),
    Register(Birth),
}

// What a good page is.
#[derive(Clone, Copy)]
pub enum Page {
    Erased,
    Data(Version),
    Deletion(Version),
    Register(Register),
}
