// One request, made on the store.
ghost use Rattle.std.specs.Prelude.{◌≡◌, ◌+◌, ◌<◌, ◌≤◌, true, [], ◌++◌, IfSome, vec_len, vec_capacity};
ghost use Rattle.rules.specs.Calls.{open_slip};
ghost use Rattle.rules.specs.Told.{told};
ghost use Rattle.store.specs.Views.{seen};
ghost use Rattle.session.specs.Requests.{call_of, bytes_of, numbers_of, opens_by, values_of};
ghost use Rattle.session.specs.Kinds.{can_answer};
ghost use Rattle.session.specs.declared.requests.Request.TheVariants.{Open};
ghost use Rattle.session.specs.Slips.{slip_numbers};
ghost use Rattle.session.specs.Turns.{Called, Turn};

use crate::hand::take_slip;
use crate::requests::{Request, Value};
use chip::Chip;
use refusals::Refusal;
use store::{Slip, Store};

// Opens, and puts the slip to the others.
fn open_slip<C: Chip>(store: &mut Store<C>, slips: &mut Vec<Slip>) -> Result<Value, Refusal>
    requires { vec_len slips.old < vec_capacity slips.old }
    ensures kept { C.Chip.kept store.new.chip ≡ C.Chip.kept store.old.chip }
    ensures capacity { vec_capacity slips.new ≡ vec_capacity slips.old }
    ensures called { Called open_slip (seen C.Chip store.old) (slip_numbers slips.old.items) (told values_of [] result) (seen C.Chip store.new) (slip_numbers slips.new.items) }
    ensures kind { can_answer Open result ≡ true }
{
    let slip = store.open()?;
    let number = slip.number();
    slips.push_reserved(slip);
    Ok(Value::Tick(number))
}

// Makes the call, in the buffer that is for it; nothing for a keep or back whose slip is not in hand.
pub(crate) fn perform<C: Chip>(
    store: &mut Store<C>,
    slips: &mut Vec<Slip>,
    request: Request,
    bytes: &mut [u8],
    numbers: &mut [u32],
) -> Option<Result<Value, Refusal>>
    requires room { vec_len slips.old + opens_by (call_of request) ≤ vec_capacity slips.old }
    requires bytes { bytes.old ≡ bytes_of request }
    requires numbers { numbers.old ≡ numbers_of request }
    ensures kept { C.Chip.kept store.new.chip ≡ C.Chip.kept store.old.chip }
    ensures capacity { vec_capacity slips.new ≡ vec_capacity slips.old }
    ensures turn { Turn (call_of request.entry) (seen C.Chip store.old) (slip_numbers slips.old.items) (bytes.new ++ numbers.new) result (seen C.Chip store.new) (slip_numbers slips.new.items) }
    ensures kind { IfSome result (λ outcome. can_answer request.entry outcome ≡ true) }
{
    match request {
        Request::Mount => Some(store.mount().map(Value::Tick)),
        Request::Close => Some(store.close().map(|()| Value::Nothing)),
        Request::Count => Some(store.count().map(Value::Count)),
        Request::Clean => Some(store.clean().map(Value::Size)),
        Request::Freeze => Some(store.freeze().map(Value::Tick)),
        Request::Open => Some(open_slip(store, slips)),
        Request::Write { sector, given } => Some(store.write(sector, given).map(Value::Tick)),
        Request::Delete { sector } => Some(store.delete(sector).map(Value::Tick)),
        Request::Read { sector, .. } => Some(store.read(sector, bytes).map(Value::Holding)),
        Request::Look { state, sector, .. } => {
            Some(store.look(state, sector, bytes).map(Value::Holding))
        }
        Request::Since { sector } => Some(store.since(sector).map(Value::Since)),
        Request::SinceIn { state, sector } => {
            Some(store.since_in(state, sector).map(Value::Since))
        }
        Request::Held { .. } => Some(store.held(numbers).map(Value::Size)),
        Request::Label { .. } => Some(store.label(bytes).map(Value::Size)),
        Request::Release { state } => Some(store.release(state).map(Value::Tick)),
        Request::Revert { state } => Some(store.revert(state).map(Value::Tick)),
        Request::Keep { state } => Some(store.keep(take_slip(slips, state)?).map(Value::Tick)),
        Request::Back { state } => Some(store.back(take_slip(slips, state)?).map(Value::Tick)),
    }
}
