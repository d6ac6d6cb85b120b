//! From what the workers gave back to the outcome of the run.

ghost use Rattle.std.specs.Prelude.{◌≡◌, true};
ghost use Rattle.qs_program.specs.Sound.{IsSound};
ghost use Rattle.qs_run.specs.Workers.{HaveRun};
ghost use Rattle.qs_run_laws.specs.Outcomes.{IsOutcome};

use crate::collect::OutcomeRoom;
use crate::collect::clients::collect_clients;
use crate::collect::handlers::collect_handlers;
use crate::collect::show::shown_outcome;
use crate::start::RunResults;
use qs_chunk::ChunkSize;
use qs_desk::DeskName;
use qs_played::Outcome;
use qs_syncset::Mode;

/// The outcome of a program's run in a mode and with chunks of a size, by what the workers and the desk gave back.
/// Whatever the threads did at once, it is what the blocks do alone, one after another along the order of reservations.
/// Nothing is allocated. The mode and the size are named for the contract alone.
pub(crate) fn collect_outcome<D: DeskName>(
    results: RunResults<D>,
    room: OutcomeRoom,
    mode: Mode,
    size: ChunkSize,
) -> Outcome
    requires closed { results.desk.closed ≡ true }
    requires sound { IsSound D.program }
    requires ran { HaveRun D.program mode size results.handlers.items results.clients.items }
    ensures outcome { IsOutcome D.program mode size result }
{
    let _ = mode;
    let _ = size;
    let RunResults {
        mut handlers,
        clients,
        mut desk,
    } = results;
    let OutcomeRoom {
        ended,
        rows,
        journals,
        states,
    } = room;
    let rows = collect_clients(&mut desk, handlers.as_mut_slice(), clients, rows);
    let (journals, states) = collect_handlers(&mut desk, handlers, journals, states);
    shown_outcome(desk.into_order(), rows, journals, states, ended)
}
