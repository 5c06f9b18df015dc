// Formatting a chip.
ghost use Rattle.std.specs.Prelude.{◌≡◌, ℕ, ◌*◌, ◌≤◌, []};
ghost use Rattle.limits.specs.Values.{held_of, label_of};
ghost use Rattle.noting.specs.Fresh.{Formatted};
ghost use Rattle.changing.specs.Format.{Blank, AllErased, Begins, Fresh, Formats};

use chip::{BlockNumber, Chip, ChipFault, PAGE_BYTES, PageNumber};
use layout_write::write_register;
use limits::{Birth, Held, Label, Register};
use noting::fresh_index;
use tables::Index;

fn erase_all<C: Chip>(chip: &mut C) -> Result<(), ChipFault>
    ensures kept { C.Chip.kept chip.new ≡ C.Chip.kept chip.old }
    ensures same { C.Chip.blocks chip.new ≡ C.Chip.blocks chip.old }
    ensures erased { AllErased result (C.Chip.pages chip.new) }
{
    let blocks = chip.size();
    // Over numbers: the chip knows a block by nothing else.
    for b in 0..blocks {
        chip.erase(BlockNumber(b as u32))?;
    }
    Ok(())
}

// The register of a fresh store.
fn first_register(label: Label) -> Register
    ensures birth { result.birth.number ≡ 1 }
    ensures held { held_of result.held ≡ [] }
    ensures label { result.label ≡ label }
{
    Register {
        birth: Birth { number: 1 },
        held: Held::empty(),
        label,
    }
}

// Writes the first register onto the first page, where all pages are erased.
fn begin<C: Chip>(chip: &mut C, label: Label) -> Result<(), ChipFault>
    ensures kept { C.Chip.kept chip.new ≡ C.Chip.kept chip.old }
    ensures same { C.Chip.blocks chip.new ≡ C.Chip.blocks chip.old }
    ensures begins { (blocks : ℕ) → C.Chip.blocks chip.old ≡ blocks → 2 ≤ blocks → blocks * C.Chip.per ≤ 2048 → Blank (C.Chip.pages chip.old) → Begins blocks C.Chip.per (label_of label) result (C.Chip.pages chip.new) }
{
    let mut image = [0u8; PAGE_BYTES];
    write_register(&first_register(label), &mut image);
    chip.program(PageNumber(0), &image)
}

// What memory has of a chip with nothing but the first register.
fn first_index<C: Chip>(chip: &C, page: PageNumber, spare: BlockNumber, label: Label) -> Index
    ensures { (blocks : ℕ) → C.Chip.blocks chip.now ≡ blocks → Formatted blocks C.Chip.per (C.Chip.pages chip.now) page.0 spare.0 (label_of label) → Fresh blocks C.Chip.per (label_of label) result (C.Chip.pages chip.now) }
{
    let pages = chip.size() * C::block_pages();
    fresh_index(pages, page, spare, label)
}

// Erases all blocks, writes the first register onto the first page, and answers what memory has of
// the chip then.
pub fn format_chip<C: Chip>(chip: &mut C, label: Label) -> Result<Index, ChipFault>
    ensures kept { C.Chip.kept chip.new ≡ C.Chip.kept chip.old }
    ensures same { C.Chip.blocks chip.new ≡ C.Chip.blocks chip.old }
    ensures formats { 2 ≤ C.Chip.blocks chip.old → C.Chip.blocks chip.old * C.Chip.per ≤ 2048 → Formats (C.Chip.blocks chip.old) C.Chip.per (label_of label) result (C.Chip.pages chip.new) }
{
    erase_all(chip)?;
    begin(chip, label)?;
    Ok(first_index(chip, PageNumber(0), BlockNumber(1), label))
}
