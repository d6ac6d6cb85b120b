//! Collecting the handlers after a run.

ghost use Rattle.std.specs.Prelude.{◌≡◌, ◌≤◌, true, map, vec_len, vec_capacity};
ghost use Rattle.std.specs.List.{AllByRecursion};
ghost use Rattle.qs_run.specs.Collected.{HasTakenAll, worker_journal, worker_state};

use crate::worker::HandlerWorker;
use qs_desk::laws::follows;
use qs_desk::{Desk, DeskName};
use qs_objects::{Journal, Object};

// Collects one handler: the tickets that it took are compared with those that the desk pushed to it, and its object and
// journal are moved out.
fn collect_handler<D: DeskName>(desk: &mut Desk<D>, handler: HandlerWorker<D>) -> (Object, Journal)
    requires closed { desk.old.closed ≡ true }
    ensures desk { desk.new ≡ desk.old }
    ensures taken_all { HasTakenAll D.program desk.old.history handler }
    ensures state { result.0 ≡ worker_state handler }
    ensures journal { result.1 ≡ worker_journal handler }
{
    let HandlerWorker {
        held,
        tickets,
        lanes: _,
    } = handler;
    follows(desk, tickets);
    held.into_parts()
}

/// Collects all handlers in their order.
pub(crate) fn collect_handlers<D: DeskName>(
    desk: &mut Desk<D>,
    handlers: Vec<HandlerWorker<D>>,
    journals: Vec<Journal>,
    states: Vec<Object>,
) -> (Vec<Journal>, Vec<Object>)
    requires closed { desk.old.closed ≡ true }
    requires journals_room { (vec_len journals ≡ 0) × (vec_len handlers ≤ vec_capacity journals) }
    requires states_room { (vec_len states ≡ 0) × (vec_len handlers ≤ vec_capacity states) }
    ensures desk { desk.new ≡ desk.old }
    ensures taken_all { AllByRecursion (HasTakenAll D.program desk.old.history) handlers.items }
    ensures journals { result.0.items ≡ map worker_journal handlers.items }
    ensures states { result.1.items ≡ map worker_state handlers.items }
{
    let mut journals = journals;
    let mut states = states;
    for handler in handlers {
        let (state, journal) = collect_handler(desk, handler);
        journals.push_reserved(journal);
        states.push_reserved(state);
    }
    (journals, states)
}
