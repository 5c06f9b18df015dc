// The slips that are left over when all requests were made.
ghost use Rattle.std.specs.Prelude.{◌≡◌, ℕ, List, [], All, map};
ghost use Rattle.rules.specs.Calls.{keep_slip};
ghost use Rattle.store.specs.Views.{seen};
ghost use Rattle.session.specs.Requests.{events_of};
ghost use Rattle.session.specs.Kinds.{OfItsKind};
ghost use Rattle.session.specs.Stages.{Goes};
ghost use Rattle.session.specs.Slips.{slip_numbers};

use crate::memory::Memory;
use crate::requests::{Made, Reply, Request, Value};
use chip::Chip;
use std::alloc::Global;
use store::Store;

// Keeps each of them, in the order of their opens, and gives back the calls that were made.
pub(crate) fn keep_leftovers<'a, C: Chip>(
    heap: Global,
    store: &mut Store<C>,
    memory: Memory<'a>,
) -> Vec<Made<'a>>
    ensures kept { C.Chip.kept store.new.chip ≡ C.Chip.kept store.old.chip }
    ensures goes { (late : List ℕ) × Goes (map keep_slip late) (events_of memory.entry.done.items) (seen C.Chip store.old) (slip_numbers memory.entry.slips.items) (events_of result.items) (seen C.Chip store.new) [] }
    ensures kinds { All OfItsKind result.items }
{
    let Memory {
        blanks: _,
        slips,
        mut done,
    } = memory;
    // A `for` runs only over values that have `Drop`; a slip has none.
    let mut slips = slips.into_iter();
    while let Some(slip) = slips.next() {
        let state = slip.number();
        let outcome = store.keep(slip).map(Value::Tick);
        let request = Request::Keep { state };
        let reply = Reply {
            outcome,
            bytes: Vec::new(heap),
            numbers: Vec::new(heap),
        };
        done.push_reserved(Made { request, reply });
    }
    slips.destroy_empty();
    done
}
