// All memory that a session needs, taken before its first call.
ghost use Rattle.std.specs.Prelude.{◌≡◌, ◌≤◌, length, IfOk};
ghost use Rattle.session.specs.Requests.{calls_of, opens_in};
ghost use Rattle.session.specs.Blanks.{blank_calls};
ghost use Rattle.session.specs.Memory.{Enough};

use crate::blank::Blank;
use crate::memory::Memory;
use crate::requests::Request;
use std::alloc::{AllocError, Global};

// A blank for each request, the last first.
fn blanks_for<'a>(heap: Global, requests: &[Request<'a>]) -> Result<Vec<Blank<'a>>, AllocError>
    ensures { IfOk result (λ v. blank_calls v.items ≡ calls_of requests.now) }
{
    let mut blanks = Vec::with_capacity(heap, requests.len())?;
    for request in requests.iter().rev() {
        let blank = Blank::new(heap, *request)?;
        blanks.push(blank)?;
    }
    Ok(blanks)
}

fn count_opens(blanks: &[Blank]) -> usize
    ensures count { result ≡ opens_in (blank_calls blanks.now) }
    ensures bound { result ≤ length blanks.now }
{
    blanks
        .iter()
        .filter(|blank| matches!(blank.request, Request::Open))
        .count()
}

pub(crate) fn reserve<'a>(heap: Global, requests: &[Request<'a>]) -> Result<Memory<'a>, AllocError>
    ensures { IfOk result (λ m. Enough requests.now m) }
{
    let blanks = blanks_for(heap, requests)?;
    let opens = count_opens(blanks.as_slice());
    let room = blanks.len() + opens;
    let done = Vec::with_capacity(heap, room)?;
    let slips = Vec::with_capacity(heap, opens)?;
    Ok(Memory {
        blanks,
        slips,
        done,
    })
}
