//! Lists once more.

ghost use Rattle.std.specs.Prelude.{◌≡◌, IfOk};

use std::alloc::{AllocError, Global};

/// The same list once more, in as much memory as it needs.
pub fn copied<T: Copy>(alloc: Global, list: &[T]) -> Result<Vec<T>, AllocError>
    ensures same { IfOk result (λ copy. copy.items ≡ list.now) }
{
    let mut copy = Vec::with_capacity(alloc, list.len())?;
    copy.extend_from_slice(list)?;
    Ok(copy)
}
