// What an open store has in memory of its chip.
ghost use Rattle.std.specs.Prelude.{◌≡◌, ◌≤◌, length};

use crate::types::Record;
use chip::BlockNumber;
use limits::{Held, Label};

// The most pages of a chip with a store.
pub const MOST_PAGES: usize = 2048;

// Stands in the map for a sector that has no version. (As an `Option` the map would take 4 KB more of the
// device's memory, and an open store over 32 KB.)
pub const NO_PAGE: u16 = 65535;

#[derive(Drop)]
pub struct Index {
    // A record for each of the first `pages` pages: the device's memory is fixed.
    pub records: [Record; MOST_PAGES],
    pub pages: usize,
    // The page of the youngest version of each sector.
    pub map: [u16; 2048],
    // The greatest birth of all pages, and that of the youngest register.
    pub clock: u32,
    pub newest: u32,
    pub held: Held,
    pub label: Label,
    // A wholly erased block.
    pub spare: BlockNumber,
    ghost long: { length records ≡ 2048 },
    ghost wide: { length map ≡ 2048 },
    ghost few: { pages ≤ 2048 },
}
