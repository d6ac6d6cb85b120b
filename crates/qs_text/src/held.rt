// What texts of graphs say of the names of a block's list.

ghost use Rattle.std.specs.Prelude.{◌≡◌, ◌<◌, IfOk, length};
ghost use Rattle.std.specs.List.{AllByRecursion, filter};
ghost use Rattle.qs_program.specs.audit.Limits.{most_handlers};
ghost use Rattle.qs_program.specs.audit.Program.{blocks_of, own_block};
ghost use Rattle.qs_syncset.specs.held.Table.{has};

use qs_program::Program;
use qs_syncset::Sets;
use std::alloc::{AllocError, Global};

/// The names of a block's list, each one of 8.
pub(crate) fn reserved_by(program: &Program, client: u8, block: u8) -> &[u8]
    requires client { client < length program.now.clients }
    requires block { block < blocks_of program.now client }
    ensures value { result.now ≡ (own_block program.now client block).reserved }
    ensures handlers { AllByRecursion (λ h. h < most_handlers) result.now }
{
    program.keeps_sound();
    program.own_block(client, block).reserved()
}

/// The names of a block's list that are held at a node, in the list's order; each is one of 8. An error says that an
/// allocation failed.
pub fn held_at(alloc: Global, reserved: &[u8], sets: &Sets, n: usize) -> Result<Vec<u8>, AllocError>
    requires node { n < length sets.now }
    requires handlers { AllByRecursion (λ h. h < most_handlers) reserved.now }
    ensures held { IfOk result (λ held. held.items ≡ filter (has sets.now n) reserved.now) }
{
    let mut held = Vec::new(alloc);
    for object in reserved {
        if sets.holds(n, *object) {
            held.push(*object)?;
        }
    }
    Ok(held)
}
