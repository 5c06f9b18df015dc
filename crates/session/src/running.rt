// A whole session.
ghost use Rattle.std.specs.Prelude.{◌≡◌, All, IfOk};
ghost use Rattle.session.specs.Sessions.{Ended};
ghost use Rattle.session.specs.Kinds.{OfItsKind};

use crate::leftovers::keep_leftovers;
use crate::making::make_calls;
use crate::memory::Memory;
use crate::requests::{Halt, Made, Request};
use crate::reserving::reserve;
use chip::Chip;
use std::alloc::Global;
use store::Store;

// Formats the chip, makes the calls in their order, and gives back the chip and what was answered.
// A keep or back whose slip is not in hand is left out, and slips that are left over are kept.
// (No `?` here: the chip goes back in each case.)
pub fn run_session<'a, C: Chip>(
    heap: Global,
    chip: C,
    label: &[u8],
    requests: &[Request<'a>],
) -> (C, Result<Vec<Made<'a>>, Halt>)
    ensures kept { C.Chip.kept result.0 ≡ C.Chip.kept chip }
    ensures blocks { C.Chip.blocks result.0 ≡ C.Chip.blocks chip }
    ensures ended { Ended label.now requests.now (C.Chip.blocks chip) C.Chip.per (C.Chip.pages chip) (C.Chip.pages result.0) result.1 }
    ensures kinds { IfOk result.1 (λ made. All OfItsKind made.items) }
{
    let Ok(mut memory) = reserve(heap, requests) else {
        return (chip, Err(Halt::NoMemory));
    };
    let mut store = Store::new(chip);
    if let Err(refusal) = store.format(label) {
        let Memory {
            blanks: _,
            slips,
            done: _,
        } = memory;
        slips.destroy_empty();
        return (store.unmount(), Err(Halt::Refused(refusal)));
    }
    make_calls(&mut store, &mut memory);
    let made = keep_leftovers(heap, &mut store, memory);
    (store.unmount(), Ok(made))
}
