// The slips in hand, in the order of their opens.
ghost use Rattle.std.specs.Prelude.{◌≡◌, position, vec_capacity};
ghost use Rattle.session.specs.Slips.{numbered, Taken};

use rules::Tick;
use store::Slip;

// Where the slip with this number is.
fn find_slip(slips: &[Slip], state: Tick) -> Option<usize>
    ensures { result ≡ position (numbered state.0) slips.now }
{
    slips.iter().position(|slip| slip.number() == state)
}

// Takes out the slip with this number, if it is in hand.
pub(crate) fn take_slip(slips: &mut Vec<Slip>, state: Tick) -> Option<Slip>
    ensures capacity { vec_capacity slips.new ≡ vec_capacity slips.old }
    ensures taken { Taken state.0 slips.old.items result slips.new.items }
{
    let at = find_slip(slips.as_slice(), state)?;
    Some(slips.remove(at))
}
