// All memory of a session.
ghost use Rattle.std.specs.Prelude.{◌+◌, ◌≤◌, All, vec_len, vec_capacity};
ghost use Rattle.session.specs.Requests.{opens_in};
ghost use Rattle.session.specs.Blanks.{blank_calls};
ghost use Rattle.session.specs.Kinds.{OfItsKind};

use crate::blank::Blank;
use crate::requests::Made;
use store::Slip;

pub(crate) struct Memory<'a> {
    // The calls to come, the last first.
    pub(crate) blanks: Vec<Blank<'a>>,
    // The slips in hand, in the order of their opens.
    pub(crate) slips: Vec<Slip>,
    // The calls that were made, in their order.
    pub(crate) done: Vec<Made<'a>>,
    // There is room for each slip that can come, for each call to come and for the keep of each slip.
    ghost slip_room: { vec_len slips + opens_in (blank_calls blanks.items) ≤ vec_capacity slips },
    ghost room: { vec_len done + vec_len slips + (vec_len blanks + opens_in (blank_calls blanks.items)) ≤ vec_capacity done },
    ghost kinds: { All OfItsKind done.items },
}
