// The lines of the program `inspect`, with what mount makes of the image among them. (No program prints it yet.)
ghost use Rattle.std.specs.Prelude.{◌≡◌, IfOk, string_bytes};
ghost use Rattle.inspection.specs.Arguments.{name_of};
ghost use Rattle.inspection.specs.Images.{left_over};
ghost use Rattle.inspection.specs.Reports.{report_text_with};
ghost use Rattle.mount_report.specs.Lines.{mount_text};

use crate::mounts::mount_lines;
use chip::Chip;
use inspection::arguments::Make;
use inspection::images::left_over;
use inspection::reports::report_with;
use std::alloc::{AllocError, Global};
use store::Store;

// The report on a chip that was made over the image in a file of so many bytes.
pub fn image_report<C: Chip + Drop>(
    heap: Global,
    make: Make,
    file_bytes: usize,
    chip: C,
) -> Result<String, AllocError>
    ensures { IfOk result (λ text. string_bytes text ≡ report_text_with (name_of make) (C.Chip.blocks chip) C.Chip.per (left_over file_bytes (C.Chip.blocks chip) C.Chip.per) (C.Chip.pages chip) (mount_text (C.Chip.blocks chip) C.Chip.per (C.Chip.pages chip))) }
{
    let mut store = Store::new(chip);
    let lines = mount_lines(heap, &mut store);
    let chip = store.unmount();
    let left = left_over(file_bytes, &chip);
    report_with(heap, make, left, &chip, lines?.as_str())
}
