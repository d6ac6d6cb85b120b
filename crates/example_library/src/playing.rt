//! Runs that one thread plays.

use qs_chunk::ChunkSize;
use qs_core::{play, play_plain_in_order};
use qs_played::MOST_ROUNDS;
use qs_program::Program;
use qs_report::report;
use qs_syncset::Mode;
use std::alloc::Global;

/// The report of a run on the optimised machine: no picks, and rounds until it has finished. `play` answers exactly
/// what that schedule shows (clause *played*), which is isolated (*isolated*), with the exact number of
/// synchronisations of the mode (*counted*). `report` answers its text to the byte.
pub(crate) fn in_a_mode(alloc: Global, program: &Program, mode: Mode) -> Option<Vec<u8>> {
    let size = ChunkSize::new(8)?;
    let played = play(alloc, program, mode, size, &[], MOST_ROUNDS).ok()?;
    report(alloc, program, &played).ok()
}

/// The report of a run by the plain rules, one whole block after another: those of these clients, each client's in
/// turn. `Order` comes exactly where they name no order (clauses *legal*, *order*).
pub(crate) fn in_an_order(alloc: Global, program: &Program, clients: &[u8]) -> Option<Vec<u8>> {
    let played = play_plain_in_order(alloc, program, clients).ok()?;
    report(alloc, program, &played).ok()
}
