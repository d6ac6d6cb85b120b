//! The room of a chunk: places side by side, each empty or with a value. No other file has a pointer.
//!
//! A value goes only into an empty place, it leaves its place empty, and the memory goes back only where each place is
//! empty: so no value is lost, and none is handed out or dropped twice.

ghost use Rattle.std.specs.Prelude.{◌≡◌, ◌<◌, ◌≤◌, List, Option, Some, None, length, replicate, get_or, slice_set, IfOk};
ghost use Rattle.std.specs.Vec.Ownership.{FitsInBlock};
ghost use base.Fml.{ftrue};
ghost use Rattle.qs_chunk.specs.Ring.{IsRing};
ghost use Rattle.qs_chunk.specs.Room.{room_owns};
ghost use Rattle.qs_chunk.specs.Limits.{largest_chunk};

use crate::places::place_on;
use std::alloc::{AllocError, Allocator};
use std::marker::{Model, PhantomData, Send, Sync};
use std::mem::{align_of, size_of};

/// The owner of places for values, and of the right to give their memory back.
pub(crate) struct Room<T, A: Allocator> {
    ptr: *mut T,
    by: PhantomData<A>,
    ghost places: { List (Option T) },
    ghost giver: { A },
}

impl<T, A: Allocator> Model for Room<T, A> {
    ghost also_owns = { λ r. room_owns T.row (A.dealloc_token r.giver) r.ptr r.places };

    ghost also_shares = { λ _ _ _. ftrue };
}

// Whoever has it has the places and the right alone.
unsafe impl<T: Send, A: Allocator + Send> Send for Room<T, A> {}

unsafe impl<T: Sync, A: Allocator + Sync> Sync for Room<T, A> {}

/// As many empty places as `count` says.
pub(crate) fn make<T, A: Allocator>(alloc: &A, count: usize) -> Result<Room<T, A>, AllocError>
    requires fits { FitsInBlock T.row count }
    ensures places { IfOk result (λ room. room.places ≡ replicate count None) }
    ensures giver { IfOk result (λ room. room.giver ≡ alloc.now) }
{
    match alloc.allocate(count * size_of::<T>(), align_of::<T>()) {
        Ok(block) => Ok(Room {
            ptr: block as *mut T,
            by: PhantomData,
        }),
        Err(refused) => Err(refused),
    }
}

impl<T, A: Allocator> Room<T, A> {
    /// Puts a value into an empty place.
    pub(crate) fn write(&mut self, place: usize, value: T)
        requires inside { place < length self.old.places }
        requires empty { get_or self.old.places place None ≡ None }
        ensures places { self.new.places ≡ slice_set self.old.places place (Some value) }
        ensures giver { self.new.giver ≡ self.old.giver }
    {
        unsafe { self.ptr.add(place).write(value) }
    }

    /// Takes the value out of a place, which is empty then.
    pub(crate) fn read(&mut self, place: usize) -> T
        requires inside { place < length self.old.places }
        requires full { (value : T) × (get_or self.old.places place None ≡ Some value) }
        ensures value { get_or self.old.places place None ≡ Some result }
        ensures places { self.new.places ≡ slice_set self.old.places place None }
        ensures giver { self.new.giver ≡ self.old.giver }
    {
        unsafe { self.ptr.add(place).read() }
    }

    /// Drops the `count` values that lie from `start` on, each once. No value is left.
    pub(crate) fn drop_values(&mut self, capacity: usize, start: usize, count: usize)
    where
        T: Drop,
        requires ring { IsRing self.old.places capacity start count }
        requires size { capacity ≤ largest_chunk }
        ensures places { self.new.places ≡ replicate capacity None }
        ensures giver { self.new.giver ≡ self.old.giver }
    {
        let mut first = start;
        let mut left = count;
        while left > 0 {
            drop(self.read(first));
            first = place_on(first, 1, capacity);
            left -= 1;
        }
    }

    /// Gives the memory back. Each place is empty.
    pub(crate) fn free(self, alloc: &A, count: usize)
        requires places { self.places ≡ replicate count None }
        requires giver { self.giver ≡ alloc.now }
    {
        let Room { ptr, by: _ } = self;
        unsafe {
            alloc.deallocate(ptr as *mut u8, count * size_of::<T>(), align_of::<T>());
        }
    }
}
