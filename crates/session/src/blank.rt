// A call to be made, with the buffer that it is to fill.
ghost use Rattle.std.specs.Prelude.{◌≡◌, IfOk};
ghost use Rattle.session.specs.Requests.{bytes_of, numbers_of};

use crate::requests::Request;
use std::alloc::{AllocError, Global};

#[derive(Drop)]
pub(crate) struct Blank<'a> {
    pub(crate) request: Request<'a>,
    pub(crate) bytes: Vec<u8>,
    pub(crate) numbers: Vec<u32>,
    // The buffer is as it was handed over.
    ghost bytes_are: { bytes.items ≡ bytes_of request },
    ghost numbers_are: { numbers.items ≡ numbers_of request },
}

// (Apart from `copy_numbers`: other requests bring these, and the element differs.)
fn copy_bytes(heap: Global, request: Request) -> Result<Vec<u8>, AllocError>
    ensures { IfOk result (λ v. v.items ≡ bytes_of request.entry) }
{
    match request {
        Request::Read { buffer, .. } | Request::Look { buffer, .. } | Request::Label { buffer } => {
            Vec::from_slice(heap, buffer)
        }
        _ => Ok(Vec::new(heap)),
    }
}

fn copy_numbers(heap: Global, request: Request) -> Result<Vec<u32>, AllocError>
    ensures { IfOk result (λ v. v.items ≡ numbers_of request.entry) }
{
    match request {
        Request::Held { buffer } => Vec::from_slice(heap, buffer),
        _ => Ok(Vec::new(heap)),
    }
}

impl<'a> Blank<'a> {
    pub(crate) fn new(heap: Global, request: Request<'a>) -> Result<Blank<'a>, AllocError>
        ensures { IfOk result (λ b. b.request ≡ request.entry) }
    {
        let bytes = copy_bytes(heap, request)?;
        let numbers = copy_numbers(heap, request)?;
        Ok(Blank {
            request,
            bytes,
            numbers,
        })
    }
}
