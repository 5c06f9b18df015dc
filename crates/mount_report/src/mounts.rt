// What mount makes of a chip.
ghost use Rattle.std.specs.Prelude.{◌≡◌, false, IfOk, string_bytes};
ghost use Rattle.refusals.specs.Numbers.{verdict_of};
ghost use Rattle.store.specs.Views.{seen, is_open};
ghost use Rattle.mount_report.specs.Lines.{refusal_line, mount_text};

use crate::mounted::Mounted;
use chip::Chip;
use refusals::Refusal;
use std::alloc::{AllocError, Global};
use store::Store;

// The line on a mount that is refused.
fn refusal_line(heap: Global, refusal: Refusal) -> Result<String, AllocError>
    ensures { IfOk result (λ text. string_bytes text ≡ refusal_line (verdict_of refusal).number (verdict_of refusal).values) }
{
    let number = refusal.number();
    match refusal {
        Refusal::BadPage { page, cause } => {
            let page = page.0;
            let cause = cause.number();
            format!(in heap; "mount: {number}, page {page}, cause {cause}\n")
        }
        _ => format!(in heap; "mount: {number}\n"),
    }
}

// Mounts a closed store, and says what came of it.
pub fn mount_lines<C: Chip>(heap: Global, store: &mut Store<C>) -> Result<String, AllocError>
    ensures kept { C.Chip.kept store.new.chip ≡ C.Chip.kept store.old.chip }
    ensures blocks { C.Chip.blocks store.new.chip ≡ C.Chip.blocks store.old.chip }
    ensures pages { C.Chip.pages store.new.chip ≡ C.Chip.pages store.old.chip }
    ensures text { is_open (seen C.Chip store.old) ≡ false → IfOk result (λ text. string_bytes text ≡ mount_text (C.Chip.blocks store.old.chip) C.Chip.per (C.Chip.pages store.old.chip)) }
{
    match store.mount() {
        Ok(clock) => Mounted { heap, store }.text(clock),
        Err(refusal) => refusal_line(heap, refusal),
    }
}
