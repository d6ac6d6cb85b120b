// Lists that grow.

ghost use Rattle.std.specs.Prelude.{◌≡◌, ◌<◌, [], ◌∷◌, ◌++◌, vec_len, vec_capacity, OnOk};

use std::alloc::AllocError;

/// Adds a value at the end of a list.
#[inline(always)]
pub fn add<T: Drop>(list: &mut Vec<T>, value: T) -> Result<(), AllocError>
    ensures added { OnOk result (list.new.items ≡ list.old.items ++ value ∷ []) }
{
    make_room(list)?;
    list.push_reserved(value);
    Ok(())
}

// Makes room for one more value.
#[inline(always)]
pub(crate) fn make_room<T>(list: &mut Vec<T>) -> Result<(), AllocError>
    ensures same { list.new.items ≡ list.old.items }
    ensures room { OnOk result (vec_len list.new < vec_capacity list.new) }
{
    if list.len() == list.capacity() {
        grow(list)?;
    }
    Ok(())
}

// Makes room in a list that has none.
#[inline(never)]
fn grow<T>(list: &mut Vec<T>) -> Result<(), AllocError>
    ensures same { list.new.items ≡ list.old.items }
    ensures room { OnOk result (vec_len list.new < vec_capacity list.new) }
{
    list.reserve(1)
}
