// What a page can mean, in types that hold no other value.
#![tactic(auto)]

pub mod types;

ghost use Rattle.std.specs.Prelude.{◌≡◌, [], ◌∷◌, ◌++◌};
ghost use Rattle.std.specs.Option.{option_map};
ghost use Rattle.limits.specs.Numbers.{within, rising};
ghost use Rattle.limits.specs.Values.{items_of, held_of, label_of, up_to, register_values, register_from};

use chip::SectorNumber;
pub use types::{Birth, Bounded, Held, Label, Register, Sector, Version};

// The last sector that a version can have.
pub const LAST_SECTOR: u32 = 2047;

// The last value of the clock.
pub const LAST_BIRTH: u32 = 4294967294;

// Held numbers that a register can have.
pub const MOST_HELD: usize = 8;

// Bytes that a label can have.
pub const LABEL_BYTES: usize = 32;

impl Sector {
    pub fn new(sector: SectorNumber) -> Option<Sector>
        ensures { option_map (λ s. s.number) result ≡ within 0 2047 sector.0 }
    {
        if sector.0 > LAST_SECTOR {
            return None;
        }
        Some(Sector {
            number: sector.0 as u16,
        })
    }
}

impl Birth {
    pub fn new(number: u32) -> Option<Birth>
        ensures { option_map (λ b. b.number) result ≡ within 1 4294967294 number }
    {
        if number < 1 || number > LAST_BIRTH {
            return None;
        }
        Some(Birth { number })
    }
}

impl<T: Copy + Default, const MOST: usize> Bounded<T, MOST> {
    // No item.
    pub fn empty() -> Self
        ensures { items_of result ≡ [] }
    {
        Bounded {
            items: [T::default(); MOST],
            len: 0,
        }
    }

    // The items of a slice, if they are not more than MOST.
    pub fn new(given: &[T]) -> Option<Self>
        ensures { option_map items_of result ≡ up_to MOST given.now }
    {
        if given.len() > MOST {
            return None;
        }
        let mut items = [T::default(); MOST];
        // By index: a copy into a part of an array whose length is a parameter leaves no fact of it.
        for (i, item) in given.iter().enumerate() {
            items[i] = *item;
        }
        Some(Bounded {
            items,
            len: given.len(),
        })
    }

    // The items and one after them, unless there are MOST already.
    pub fn with(self, item: T) -> Option<Self>
        ensures { option_map items_of result ≡ up_to MOST (items_of self ++ (item ∷ [])) }
    {
        if self.len >= MOST {
            return None;
        }
        let mut items = self.items;
        items[self.len] = item;
        Some(Bounded {
            items,
            len: self.len + 1,
        })
    }

    pub fn as_slice(&self) -> &[T]
        ensures { result.now ≡ items_of self.now }
    {
        // In two steps: such an array lends a part of itself by a slice of the whole alone.
        let all = &self.items[..];
        &all[..self.len]
    }
}

// Whether the numbers rise strictly, from 1 to at most `top`.
pub fn is_rising(numbers: &[u32], top: u32) -> bool
    ensures { result ≡ rising 0 top numbers.now }
{
    let mut low = 0;
    for n in numbers {
        if *n <= low || *n > top {
            return false;
        }
        low = *n;
    }
    true
}

impl Register {
    pub fn new(birth: Birth, held: Held, label: Label) -> Option<Register>
        ensures { option_map register_values result ≡ register_from birth.number (held_of held) (label_of label) }
    {
        // (No `then`: its closure would not know that the numbers rise.)
        if is_rising(held.as_slice(), birth.number) {
            Some(Register { birth, held, label })
        } else {
            None
        }
    }
}
