// A value of the clock. It is also the number of the state that was frozen then.
#[derive(Clone, Copy, Debug, PartialEq, Eq)]
pub struct Tick(pub u32);

// What a sector holds for its reader.
#[derive(Clone, Copy, Debug, PartialEq, Eq)]
pub enum Holding {
    Data,
    // It was never written, or was deleted.
    Empty,
}

// How many versions are needed, and how many the chip can keep.
#[derive(Clone, Copy, Debug, PartialEq, Eq)]
pub struct Count {
    pub needed: usize,
    pub capacity: usize,
}
