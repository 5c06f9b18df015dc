// The calls of a session, made one after the other.
ghost use Rattle.std.specs.Prelude.{◌≡◌};
ghost use Rattle.store.specs.Views.{seen};
ghost use Rattle.session.specs.Blanks.{blank_calls};
ghost use Rattle.session.specs.Requests.{events_of};
ghost use Rattle.session.specs.Stages.{Goes};
ghost use Rattle.session.specs.Slips.{slip_numbers};

use crate::blank::Blank;
use crate::calling::perform;
use crate::memory::Memory;
use crate::requests::{Made, Reply};
use chip::Chip;
use store::Store;

// Makes the calls to come, and notes what was answered.
pub(crate) fn make_calls<C: Chip>(store: &mut Store<C>, memory: &mut Memory)
    ensures kept { C.Chip.kept store.new.chip ≡ C.Chip.kept store.old.chip }
    ensures goes { Goes (blank_calls memory.old.blanks.items) (events_of memory.old.done.items) (seen C.Chip store.old) (slip_numbers memory.old.slips.items) (events_of memory.new.done.items) (seen C.Chip store.new) (slip_numbers memory.new.slips.items) }
{
    // (A `for` would take the blanks out of the memory, whose type says that there is room for their answers.)
    while let Some(blank) = memory.blanks.pop() {
        let Blank {
            request,
            mut bytes,
            mut numbers,
        } = blank;
        let outcome = perform(
            store,
            &mut memory.slips,
            request,
            bytes.as_mut_slice(),
            numbers.as_mut_slice(),
        );
        if let Some(outcome) = outcome {
            let reply = Reply {
                outcome,
                bytes,
                numbers,
            };
            memory.done.push_reserved(Made { request, reply });
        }
    }
}
