// Memory that was taken, and to which nothing was written yet.

ghost use Rattle.std.specs.Prelude.{◌≡◌, ◌≤◌, [], vec_capacity};

use std::alloc::Global;

/// A value that tells nothing, to be written where no value lies yet.
pub(crate) trait Blank: Drop {
    fn blank(alloc: Global) -> Self;
}

/// Writes to the memory that an empty list has taken for so many values. The system finds memory as it is first written
/// to, which takes some microseconds for each page; so no later push has to wait for that.
pub(crate) fn touch<T: Blank>(items: &mut Vec<T>, count: usize)
    requires empty { items.old.items ≡ [] }
    requires room { count ≤ vec_capacity items.old }
    ensures empty { items.new.items ≡ [] }
    ensures capacity { vec_capacity items.new ≡ vec_capacity items.old }
{
    let alloc = *items.allocator();
    for _value in 0..count {
        items.push_reserved(T::blank(alloc));
    }
    items.clear();
}
