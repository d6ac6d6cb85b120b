//! What lies in a lane, read without taking it.

ghost use Rattle.std.specs.Prelude.{◌≡◌, ◌<◌, IfOk, drop, is_some, length, nat_lt, slice_index_or};
ghost use Rattle.qs_core.specs.parts.CarriedRequests.{first_requests};

use super::Lane;
use crate::parts::requests::carried;
use qs_chunk::Parcel;
use qs_objects::Request;
use std::alloc::{AllocError, Global};

impl Lane {
    /// How many parcels lie there.
    pub fn parcels(&self) -> usize
        ensures value { result ≡ length self.now.down }
    {
        self.down.len()
    }

    /// The parcel at a place; the one that comes next is at place 0.
    pub fn parcel(&self, place: usize) -> &Parcel
        requires { place < length self.now.down }
        ensures value { result.now ≡ slice_index_or self.now.down place result.now }
    {
        &self.down[place]
    }

    /// The requests of the parcel at a place, where one lies there; the lane stays the same. An error says that their
    /// memory was refused.
    pub fn requests_at(&mut self, alloc: Global, place: usize) -> Result<Vec<Request>, AllocError>
        ensures value { IfOk result (λ requests. requests.items ≡ first_requests (drop place self.old.down)) }
        ensures same { self.new ≡ self.old }
    {
        if place >= self.down.len() {
            return Ok(Vec::new(alloc));
        }
        let parcel = &mut self.down[place];
        carried(alloc, parcel)
    }

    /// Whether the object is on its way up.
    pub fn has_object(&self) -> bool
        ensures value { result ≡ is_some self.now.up }
    {
        self.up.is_some()
    }

    /// Whether an empty chunk lies ready.
    pub fn has_chunk(&self) -> bool
        ensures value { result ≡ nat_lt 0 (length self.now.spare) }
    {
        !self.spare.is_empty()
    }
}
