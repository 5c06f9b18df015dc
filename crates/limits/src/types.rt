// The types; what each can hold is in its ghost fields.
ghost use Rattle.std.specs.Prelude.{◌≡◌, ◌≤◌, true, length, take, ⊤};
ghost use Rattle.limits.specs.Numbers.{rising};

use std::alloc::AllocError;

// A sector that a page can be a version of.
#[derive(Clone, Copy, Debug, PartialEq, Eq)]
pub struct Sector {
    pub number: u16,
    ghost last: { number ≤ 2047 },
}

// The clock's value at which a page was programmed.
#[derive(Clone, Copy, Debug, PartialEq, Eq)]
pub struct Birth {
    pub number: u32,
    ghost first: { 1 ≤ number },
    ghost last: { number ≤ 4294967294 },
}

// Which version of which sector a page is.
#[derive(Clone, Copy, Debug, PartialEq, Eq)]
pub struct Version {
    pub sector: Sector,
    pub birth: Birth,
}

// Up to MOST items, which lie in the value itself. (A vector of the library that does so, `arrayvec`, is not
// `Copy`, and its copy can fail; nothing in a store may.)
pub struct Bounded<T, const MOST: usize> {
    pub items: [T; MOST],
    pub len: usize,
    ghost room: { length items ≡ MOST },
    ghost few: { len ≤ MOST },
}

// (By hand: a `Clone` is not derived over a ghost field.)
impl<T: Copy, const MOST: usize> Clone for Bounded<T, MOST> {
    ghost is_clone = { λ s r. r ≡ s };

    ghost is_infallible = { λ _. ⊤ };

    fn clone(&self) -> Result<Self, AllocError> {
        Ok(*self)
    }
}

impl<T: Copy, const MOST: usize> Copy for Bounded<T, MOST> {}

// Held numbers.
pub type Held = Bounded<u32, 8>;

// A label, by its bytes.
pub type Label = Bounded<u8, 32>;

// A register: its held numbers rise strictly, from 1 to at most its birth.
#[derive(Clone, Copy)]
pub struct Register {
    pub birth: Birth,
    pub held: Held,
    pub label: Label,
    ghost known: { rising 0 birth.number (take held.len held.items) ≡ true },
}
