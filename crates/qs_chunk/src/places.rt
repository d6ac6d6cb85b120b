//! Places one behind the other, in a ring.

ghost use Rattle.std.specs.Prelude.{◌<◌, ◌≤◌};
ghost use Rattle.qs_chunk.specs.Ring.{IsOn};
ghost use Rattle.qs_chunk.specs.Limits.{largest_chunk};

/// The place that lies `steps` on from `start`. Behind the last place lies place 0.
pub(crate) fn place_on(start: usize, steps: usize, capacity: usize) -> usize
    requires { (start < capacity) × (steps ≤ capacity) × (capacity ≤ largest_chunk) }
    ensures { IsOn start steps capacity result }
{
    let place = start + steps;
    if place < capacity {
        place
    } else {
        place - capacity
    }
}

/// The place after another one. Behind the last place lies place 0.
#[inline(always)]
pub(crate) fn place_after(place: usize, capacity: usize) -> usize
    requires { (place < capacity) × (capacity ≤ largest_chunk) }
    ensures { IsOn place 1 capacity result }
{
    let next = place + 1;
    if next == capacity { 0 } else { next }
}
