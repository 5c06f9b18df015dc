// Changes of an open store: each leaves it open, with a reading that is known.
// Chip and index are lent apart: a struct of both would be made anew at each call, and could not say what stays.
#![tactic(auto)]

mod back;
mod format;

ghost use Rattle.std.specs.Prelude.{◌≡◌, ◌+◌, min};
ghost use Rattle.limits.specs.Values.{held_of};
ghost use Rattle.readings.specs.Versions.{bytes, deleted};
ghost use Rattle.keeping.specs.Opened.{Opened};
ghost use Rattle.changing.specs.Changed.{Sweeps, Readies, NextVersion, Adds, AddsPage, RegisterImage, NextRegister, Registers, RegistersPage};

pub use back::go_back;
use chip::{Chip, ChipFault, PAGE_BYTES, PageNumber};
pub use format::format_chip;
use layout::DATA_BYTES;
use layout_write::{write_data, write_deletion, write_register};
use limits::{Birth, Held, LAST_BIRTH, Register, Sector, Version};
use noting::{note_register, note_version};
use room::{clean_block, make_room};
use tables::{Index, VersionKind};

// Above every birth.
const NO_LIMIT: u32 = u32::MAX;

// Cleans the block with the most stale pages, and answers how many it had.
pub fn clean<C: Chip>(chip: &mut C, ix: &mut Index) -> Result<usize, ChipFault>
    ensures kept { C.Chip.kept chip.new ≡ C.Chip.kept chip.old }
    ensures same { C.Chip.blocks chip.new ≡ C.Chip.blocks chip.old }
    ensures cleans { Opened (C.Chip.blocks chip.old) C.Chip.per (C.Chip.pages chip.old) ix.old → Sweeps (C.Chip.blocks chip.old) C.Chip.per (C.Chip.pages chip.old) result (C.Chip.pages chip.new) ix.new }
{
    clean_block(chip, ix, NO_LIMIT)
}

// An erased page for the next version or register.
fn free_page<C: Chip>(chip: &mut C, ix: &mut Index) -> Result<PageNumber, ChipFault>
    ensures kept { C.Chip.kept chip.new ≡ C.Chip.kept chip.old }
    ensures same { C.Chip.blocks chip.new ≡ C.Chip.blocks chip.old }
    ensures readies { Opened (C.Chip.blocks chip.old) C.Chip.per (C.Chip.pages chip.old) ix.old → Readies (C.Chip.blocks chip.old) C.Chip.per (C.Chip.pages chip.old) result (C.Chip.pages chip.new) ix.new }
{
    make_room(chip, ix, NO_LIMIT)
}

// The birth of the page that is programmed next.
fn next_birth(ix: &Index) -> Birth
    ensures { result.number ≡ min ix.now.clock 4294967293 + 1 }
{
    Birth {
        number: ix.clock.min(LAST_BIRTH - 1) + 1,
    }
}

// Programs the image of a version, and notes it.
fn add_version<C: Chip>(
    chip: &mut C,
    ix: &mut Index,
    sector: Sector,
    kind: VersionKind,
    image: &[u8; PAGE_BYTES],
) -> Result<(), ChipFault>
    ensures kept { C.Chip.kept chip.new ≡ C.Chip.kept chip.old }
    ensures same { C.Chip.blocks chip.new ≡ C.Chip.blocks chip.old }
    ensures adds { AddsPage (C.Chip.blocks chip.old) C.Chip.per (C.Chip.pages chip.old) ix.old sector.number kind image.now result (C.Chip.pages chip.new) ix.new }
{
    let page = free_page(chip, ix)?;
    chip.program(page, image)?;
    note_version(ix, page, sector, kind);
    Ok(())
}

// The image of a sector's next version, with these 512 bytes.
fn data_image(ix: &Index, sector: Sector, given: &[u8; DATA_BYTES]) -> [u8; PAGE_BYTES]
    ensures { NextVersion ix.now sector.number (bytes given.now) result }
{
    let birth = next_birth(ix);
    let mut image = [0u8; PAGE_BYTES];
    write_data(Version { sector, birth }, given, &mut image);
    image
}

// Writes 512 bytes as the youngest version of a sector.
pub fn add_data<C: Chip>(
    chip: &mut C,
    ix: &mut Index,
    sector: Sector,
    given: &[u8; DATA_BYTES],
) -> Result<(), ChipFault>
    ensures kept { C.Chip.kept chip.new ≡ C.Chip.kept chip.old }
    ensures same { C.Chip.blocks chip.new ≡ C.Chip.blocks chip.old }
    ensures adds { Adds (C.Chip.blocks chip.old) C.Chip.per (C.Chip.pages chip.old) ix.old sector.number (bytes given.now) result (C.Chip.pages chip.new) ix.new }
{
    let image = data_image(ix, sector, given);
    add_version(chip, ix, sector, VersionKind::Data, &image)
}

// The image of a sector's next version, a deletion.
fn deletion_image(ix: &Index, sector: Sector) -> [u8; PAGE_BYTES]
    ensures { NextVersion ix.now sector.number deleted result }
{
    let birth = next_birth(ix);
    let mut image = [0u8; PAGE_BYTES];
    write_deletion(Version { sector, birth }, &mut image);
    image
}

// Writes a deletion as the youngest version of a sector.
pub fn add_deletion<C: Chip>(chip: &mut C, ix: &mut Index, sector: Sector) -> Result<(), ChipFault>
    ensures kept { C.Chip.kept chip.new ≡ C.Chip.kept chip.old }
    ensures same { C.Chip.blocks chip.new ≡ C.Chip.blocks chip.old }
    ensures adds { Adds (C.Chip.blocks chip.old) C.Chip.per (C.Chip.pages chip.old) ix.old sector.number deleted result (C.Chip.pages chip.new) ix.new }
{
    let image = deletion_image(ix, sector);
    add_version(chip, ix, sector, VersionKind::Deletion, &image)
}

// The image of the next register, with these held numbers. There is none where they don't rise up to
// the register's birth.
fn register_image(ix: &Index, held: Held) -> Result<[u8; PAGE_BYTES], ChipFault>
    ensures says { RegisterImage ix.now (held_of held) result }
    ensures next { NextRegister ix.now (held_of held) result }
{
    let register = Register::new(next_birth(ix), held, ix.label).ok_or(ChipFault::NotErased)?;
    let mut image = [0u8; PAGE_BYTES];
    write_register(&register, &mut image);
    Ok(image)
}

// Programs the image of a register with these held numbers, and notes it.
fn add_register_page<C: Chip>(
    chip: &mut C,
    ix: &mut Index,
    held: Held,
    image: &[u8; PAGE_BYTES],
) -> Result<(), ChipFault>
    ensures kept { C.Chip.kept chip.new ≡ C.Chip.kept chip.old }
    ensures same { C.Chip.blocks chip.new ≡ C.Chip.blocks chip.old }
    ensures registers { RegistersPage (C.Chip.blocks chip.old) C.Chip.per (C.Chip.pages chip.old) ix.old (held_of held) image.now result (C.Chip.pages chip.new) ix.new }
{
    let page = free_page(chip, ix)?;
    chip.program(page, image)?;
    note_register(ix, page, held);
    Ok(())
}

// Writes a register with these held numbers: those held so far and the next tick, or those held so
// far without one.
pub fn add_register<C: Chip>(chip: &mut C, ix: &mut Index, held: Held) -> Result<(), ChipFault>
    ensures kept { C.Chip.kept chip.new ≡ C.Chip.kept chip.old }
    ensures same { C.Chip.blocks chip.new ≡ C.Chip.blocks chip.old }
    ensures registers { Registers (C.Chip.blocks chip.old) C.Chip.per (C.Chip.pages chip.old) ix.old (held_of held) result (C.Chip.pages chip.new) ix.new }
{
    let image = register_image(ix, held)?;
    add_register_page(chip, ix, held, &image)
}
