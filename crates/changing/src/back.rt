// Going back to a held number.
ghost use Rattle.std.specs.Prelude.{◌≡◌, ℕ, ◌<◌, List, length, slice_index, slice_index_or};
ghost use Rattle.chip.specs.Pages.{Page};
ghost use Rattle.limits.specs.Values.{held_of};
ghost use Rattle.tables.specs.Records.{unused};
ghost use Rattle.noting.specs.Lookups.{page_in_state};
ghost use Rattle.moving.specs.Sound.{lasting};
ghost use Rattle.changing.specs.Back.{map_entry, entered, Rewound, Cuts, WasCut, unlinked, WentBack, GoesBack};

use crate::register_image;
use chip::{Chip, ChipFault, PageNumber};
use limits::Held;
use noting::note_register;
use room::{make_room, purge};
use tables::{Index, NO_PAGE, Record};

// The sectors that a store has.
const SECTORS: usize = 2048;

// Puts a page into the map, where it has a version that was born at or before `number` and is younger
// than what the map has for its sector. The record of no page has birth 0.
fn enter(ix: &Index, number: u32, page: usize, map: &mut [u16; SECTORS])
    requires { page < 2048 }
    ensures { (s : ℕ) → s < 2048 → slice_index map.new s ≡ entered ix.now.records number page s (slice_index map.old s) }
{
    let saved = ix.at(page);
    let sector = saved.sector as usize;
    if sector < SECTORS {
        let former = ix.at(map[sector] as usize);
        if saved.is_born_within(former.birth, number) {
            map[sector] = page as u16;
        }
    }
}

// The map as it was at a held number: no page in it was born after.
fn map_at(ix: &Index, number: u32) -> [u16; SECTORS]
    ensures wide { length result ≡ 2048 }
    ensures entries { (s : ℕ) → s < 2048 → slice_index result s ≡ map_entry (page_in_state ix.now number s) }
{
    let mut map = [NO_PAGE; SECTORS];
    for (page, _) in ix.records[..ix.pages].iter().enumerate() {
        enter(ix, number, page, &mut map);
    }
    map
}

// Memory before the versions born after a held number go: the map has what each sector had then, and
// the held numbers are those that are left.
fn rewind(ix: &mut Index, number: u32, held: Held)
    ensures { Rewound ix.old number held ix.new }
{
    ix.map = map_at(ix, number);
    ix.held = held;
}

// Takes the versions born after a held number from the chip, and answers an erased page for the
// register that says so.
fn cut<C: Chip>(
    chip: &mut C,
    ix: &mut Index,
    number: u32,
    held: Held,
) -> Result<PageNumber, ChipFault>
    ensures kept { C.Chip.kept chip.new ≡ C.Chip.kept chip.old }
    ensures same { C.Chip.blocks chip.new ≡ C.Chip.blocks chip.old }
    ensures cuts { Cuts (C.Chip.blocks chip.old) C.Chip.per (C.Chip.pages chip.old) ix.old number held result (C.Chip.pages chip.new) ix.new }
{
    rewind(ix, number, held);
    purge(chip, ix, number)?;
    make_room(chip, ix, number)
}

// The record, without a link to what was born after `number`.
fn unlink(saved: Record, number: u32) -> Record
    ensures { result ≡ unlinked number saved }
{
    let link = if number < saved.link { 0 } else { saved.link };
    Record { link, ..saved }
}

// Takes the links to what was born after `number` from all records.
fn unlink_all(ix: &mut Index, number: u32)
    ensures records { (j : ℕ) → j < 2048 → slice_index_or ix.new.records j unused ≡ unlinked number (slice_index_or ix.old.records j unused) }
    ensures map { ix.new.map ≡ ix.old.map }
    ensures spare { ix.new.spare ≡ ix.old.spare }
    ensures lasting { lasting ix.new ≡ lasting ix.old }
{
    for record in &mut ix.records {
        *record = unlink(*record, number);
    }
}

// Writes the register with the held numbers that are left after a cut, and takes the links to what is
// gone.
fn settle<C: Chip>(
    chip: &mut C,
    ix: &mut Index,
    page: PageNumber,
    number: u32,
    held: Held,
) -> Result<(), ChipFault>
    ensures kept { C.Chip.kept chip.new ≡ C.Chip.kept chip.old }
    ensures same { C.Chip.blocks chip.new ≡ C.Chip.blocks chip.old }
    ensures back { (blocks per : ℕ) (pages : List Page) (old : Index) → WasCut blocks per pages old number held page.0 (C.Chip.pages chip.old) ix.old → WentBack blocks per pages old number (held_of held) result (C.Chip.pages chip.new) ix.new }
{
    let image = register_image(ix, held)?;
    chip.program(page, &image)?;
    note_register(ix, page, held);
    unlink_all(ix, number);
    Ok(())
}

// Goes back to a held number: the versions born after it go, and a register with the held numbers
// that are left says so. These are those up to the number, or those below it.
pub fn go_back<C: Chip>(
    chip: &mut C,
    ix: &mut Index,
    number: u32,
    held: Held,
) -> Result<(), ChipFault>
    ensures kept { C.Chip.kept chip.new ≡ C.Chip.kept chip.old }
    ensures same { C.Chip.blocks chip.new ≡ C.Chip.blocks chip.old }
    ensures back { GoesBack (C.Chip.blocks chip.old) C.Chip.per (C.Chip.pages chip.old) ix.old number (held_of held) result (C.Chip.pages chip.new) ix.new }
{
    let page = cut(chip, ix, number, held)?;
    settle(chip, ix, page, number, held)
}
