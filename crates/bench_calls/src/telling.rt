// What the answers say in the rows.
ghost use Rattle.std.specs.Prelude.{◌≡◌, IfOk};
ghost use Rattle.session.specs.Requests.{values_of};
ghost use Rattle.bench_calls.specs.Replies.{one_in, first_byte, value_of, reply_to, replies_to};

use bench_lines::replies::Reply as Shown;
use rules::Holding;
use session::{Made, Request, Value};
use std::alloc::{AllocError, Global};

// The value of an answer that has exactly one. (No value of a call is above the greatest u32.)
fn one_in(value: Value) -> Option<u32>
    ensures { result ≡ one_in (values_of value) }
{
    match value {
        Value::Tick(tick) => Some(tick.0),
        Value::Holding(holding) => Some(u32::from(holding == Holding::Data)),
        Value::Since(birth) => birth.map(|tick| tick.0),
        Value::Size(size) => Some(u32::try_from(size).unwrap_or(u32::MAX)),
        Value::Count(_) | Value::Nothing => None,
    }
}

// What a granted call shows: the first byte of a sector that was read and holds data, or the value.
fn value_of(request: Request, value: Value, bytes: &[u8]) -> Option<u32>
    ensures { result ≡ value_of request.entry value bytes.now }
{
    let one = one_in(value);
    match request {
        // 1 is data: the number says it, as any value can stand beside any request.
        Request::Read { .. } | Request::Look { .. } => match one {
            Some(1) => bytes.first().map(|byte| u32::from(*byte)),
            _ => None,
        },
        _ => one,
    }
}

fn reply_to(made: &Made) -> Shown
    ensures { result ≡ reply_to made.now }
{
    match made.reply.outcome {
        Ok(value) => Shown {
            number: 0,
            value: value_of(made.request, value, made.reply.bytes.as_slice()),
        },
        Err(refusal) => Shown {
            number: refusal.number(),
            value: None,
        },
    }
}

// What the calls show, in their order; the close before a mount shows nothing.
pub fn replies_to(heap: Global, calls: &[Made]) -> Result<Vec<Shown>, AllocError>
    ensures { IfOk result (λ replies. replies.items ≡ replies_to calls.now) }
{
    calls
        .iter()
        .filter(|made| !matches!(made.request, Request::Close))
        .map(reply_to)
        .collect(heap)
}
