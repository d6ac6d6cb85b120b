//! Copies of what a statement says.

ghost use Rattle.std.specs.Prelude.{◌≡◌, IfOk};

use qs_program::Call;
use std::alloc::{AllocError, Global};

/// The same call once more.
pub(crate) fn copied(alloc: Global, call: &Call) -> Result<Call, AllocError>
    ensures same { IfOk result (λ copy. copy ≡ call.now) }
{
    Ok(Call {
        object: call.object,
        op: call.op,
        args: call.args.copied(alloc)?,
    })
}
