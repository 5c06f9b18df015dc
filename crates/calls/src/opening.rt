// Formatting and mounting a chip.
ghost use Rattle.std.specs.Prelude.{◌≡◌, true, false, length, IfOk, MatchResult, nat_lt};
ghost use Rattle.limits.specs.Values.{label_of};
ghost use Rattle.readings.specs.Mount.{mount_verdict, size_fits};
ghost use Rattle.refusals.specs.declared.types.Refusal.TheVariants.{ChipSize, LabelLength};
ghost use Rattle.mounting.specs.Mounted.{verdict_in};
ghost use Rattle.calls.specs.Opening.{Begins, Reopened};

use crate::checks::refuse_if;
use changing::format_chip;
use chip::Chip;
use limits::Label;
use mounting::mount_index;
use refusals::Refusal;
use tables::{Index, MOST_PAGES};

// A store fits on the chip.
fn check_size<C: Chip>(chip: &C) -> Result<(), Refusal>
    ensures { MatchResult result (λ _. size_fits (C.Chip.blocks chip.now) C.Chip.per ≡ true) (λ f. (f ≡ ChipSize) × (size_fits (C.Chip.blocks chip.now) C.Chip.per ≡ false)) }
{
    let blocks = chip.size();
    refuse_if(
        blocks < 2 || blocks * C::block_pages() > MOST_PAGES,
        Refusal::ChipSize,
    )
}

fn check_label(text: &[u8]) -> Result<Label, Refusal>
    ensures { MatchResult result (λ l. (label_of l ≡ text.now) × (nat_lt 32 (length text.now) ≡ false)) (λ f. (f ≡ LabelLength) × (nat_lt 32 (length text.now) ≡ true)) }
{
    Label::new(text).ok_or(Refusal::LabelLength)
}

// Erases the chip and makes an empty store with this label on it; answers the tables of the store.
pub fn format<C: Chip>(chip: &mut C, label: &[u8]) -> Result<Index, Refusal>
    ensures kept { C.Chip.kept chip.new ≡ C.Chip.kept chip.old }
    ensures same { C.Chip.blocks chip.new ≡ C.Chip.blocks chip.old }
    ensures begins { Begins label.now (C.Chip.blocks chip.old) C.Chip.per (C.Chip.pages chip.old) result (C.Chip.pages chip.new) }
{
    check_size(chip)?;
    let label = check_label(label)?;
    Ok(format_chip(chip, label)?)
}

// The tables of the store on the chip, or why there is none.
pub fn mount<C: Chip>(chip: &C) -> Result<Index, Refusal>
    ensures verdict { verdict_in result ≡ mount_verdict (C.Chip.blocks chip.now) C.Chip.per (C.Chip.pages chip.now) }
    ensures opened { IfOk result (Reopened (C.Chip.blocks chip.now) C.Chip.per (C.Chip.pages chip.now)) }
{
    mount_index(chip)
}
