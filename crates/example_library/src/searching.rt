//! What a program can come to.

use qs_alike::classes_of;
use qs_conditions::{Claim, Quantifier, read_condition};
use qs_outcomes::alike::outcomes_alike;
use qs_outcomes::{Watcher, outcomes};
use qs_program::Program;
use qs_questions::{answer, first_unknown};
use qs_report::outcomes_text;
use std::alloc::Global;

// Searches give up beyond so many configurations.
const LIMIT: u32 = 10_000;

/// Hears nothing of a search.
#[derive(Drop)]
struct Silent;

impl Watcher for Silent {
    fn noted(&mut self, _configurations: usize) {}
}

/// The list of all outcomes. `outcomes` leaves none out and lists each once, with an order that comes to it (clause
/// *outcomes*); `Limit` comes only where there are more configurations (*limit*).
pub(crate) fn all_outcomes(alloc: Global, program: &Program) -> Option<Vec<u8>> {
    let all = outcomes(alloc, program, LIMIT).ok()?;
    outcomes_text(alloc, program, &all).ok()
}

/// How many outcomes there are; how many but for alike clients in each other's places, of which `outcomes_alike` lists
/// one each (clause *outcomes*); and how many configurations it took up.
pub(crate) fn up_to_alike(alloc: Global, program: &Program) -> Option<(usize, usize, usize)> {
    let all = outcomes(alloc, program, LIMIT).ok()?;
    let some = outcomes_alike(alloc, program, &classes_of(program), LIMIT).ok()?;
    Some((all.found().len(), some.found().len(), some.configurations()))
}

/// Whether a condition holds at the end of every run, and how many configurations it took to say so, of which none
/// becomes another where alike clients change places; None where the condition does not read, or speaks of what the
/// program does not have. `answer` has a witness exactly where some outcome is another one (clause *answer*).
pub(crate) fn holds_always(alloc: Global, program: &Program, text: &str) -> Option<(bool, usize)> {
    let condition = read_condition(alloc, text.as_bytes()).ok()?;
    if first_unknown(&condition, program).is_some() {
        return None;
    }
    let claim = Claim {
        line: 0,
        quantifier: Quantifier::Always,
        condition,
    };
    let found = answer(alloc, program, &claim, &[], LIMIT, &mut Silent).ok()?;
    Some((found.witness.is_none(), found.configurations))
}
