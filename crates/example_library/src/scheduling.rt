//! A scheduler of one's own.

use qs_chunk::ChunkSize;
use qs_core::Core;
use qs_played::Actor;
use qs_program::Program;
use qs_report::report;
use qs_syncset::Mode;
use std::alloc::Global;

// More steps than the script of the tour has.
const STEPS: u32 = 10_000;

// One step of the first actor that has one, clients before handlers; false where nobody has.
fn step_first(core: &mut Core<'_>, clients: usize, objects: usize) -> bool {
    for client in 0..clients.min(8) as u8 {
        if core.step(Actor::Client(client)) {
            return true;
        }
    }
    for handler in 0..objects.min(8) as u8 {
        if core.step(Actor::Handler(handler)) {
            return true;
        }
    }
    false
}

/// The report of a run in which a handler steps only while no client can. Whoever is picked, `step` makes exactly the
/// actor's step, and false says that it has none (clauses *steps*, *none*); what is shown stays isolated (*isolated*).
pub(crate) fn clients_first(alloc: Global, program: &Program, mode: Mode) -> Option<Vec<u8>> {
    let size = ChunkSize::new(8)?;
    let mut core = Core::new(alloc, program, mode, size).ok()?;
    for _ in 0..STEPS {
        if !step_first(&mut core, program.clients(), program.objects()) {
            break;
        }
    }
    let played = core.into_played(alloc).ok()?;
    report(alloc, program, &played).ok()
}
