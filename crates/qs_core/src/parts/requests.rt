//! The requests of a chunk, read without taking them. A chunk gives its values only one after another, so it is turned
//! round once.

ghost use Rattle.std.specs.Prelude.{◌≡◌, IfOk};
ghost use Rattle.qs_core.specs.parts.CarriedRequests.{requests_in};

use qs_chunk::{Chunk, Parcel};
use qs_objects::Request;
use std::alloc::{AllocError, Global};

/// The requests that a parcel carries, the first first; the parcel stays the same. An error says that their memory was
/// refused.
pub(crate) fn carried(alloc: Global, parcel: &mut Parcel) -> Result<Vec<Request>, AllocError>
    ensures value { IfOk result (λ requests. requests.items ≡ requests_in parcel.old) }
    ensures same { parcel.new ≡ parcel.old }
{
    match parcel {
        Parcel::Work(chunk) => requests_of(alloc, chunk),
        Parcel::Sync => Ok(Vec::new(alloc)),
        Parcel::Home(_) => Ok(Vec::new(alloc)),
        Parcel::End => Ok(Vec::new(alloc)),
    }
}

// Each request goes to the end of the chunk as it is copied. All memory is taken before the first one moves.
fn requests_of(alloc: Global, chunk: &mut Chunk<Request>) -> Result<Vec<Request>, AllocError>
    ensures value { IfOk result (λ requests. requests.items ≡ chunk.old.items) }
    ensures same { chunk.new ≡ chunk.old }
{
    let count = chunk.len();
    let mut requests = Vec::with_capacity(alloc, count)?;
    for _turn in 0..count {
        let Some(request) = chunk.take_front() else {
            unreachable!();
        };
        requests.push_reserved(request.copied());
        let _full = chunk.push(request);
    }
    Ok(requests)
}
