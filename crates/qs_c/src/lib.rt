//! The program for C: each call takes a script and the words of a line, and answers what the program writes and its
//! status, into memory of the caller's. Nothing is kept between calls.
#![tactic(auto)]

mod answering;

ghost use Rattle.std.specs.Prelude.{codes};
ghost use Rattle.qs_c.specs.Answers.{IsAnswered, IsHeadlineOfCall};

use crate::answering::answered;
use std::alloc::Global;

/// What `qs check` writes: how many objects, clients and blocks a script has, its load and its weight.
#[unsafe(no_mangle)]
pub extern "C" fn qs_check(
    alloc: Global,
    script: &[u8],
    words: &[u8],
    room: &mut [u8],
    status: &mut u8,
) -> usize
    ensures answer { IsAnswered (codes "check") words.now script.now room.old room.new status.new result }
{
    answered(alloc, "check", script, words, room, status)
}

/// What `qs graph` writes: the control-flow graphs, with the sets of objects that are held.
#[unsafe(no_mangle)]
pub extern "C" fn qs_graph(
    alloc: Global,
    script: &[u8],
    words: &[u8],
    room: &mut [u8],
    status: &mut u8,
) -> usize
    ensures answer { IsAnswered (codes "graph") words.now script.now room.old room.new status.new result }
{
    answered(alloc, "graph", script, words, room, status)
}

/// What `qs rules` writes: the report of a run by the plain rules.
#[unsafe(no_mangle)]
pub extern "C" fn qs_rules(
    alloc: Global,
    script: &[u8],
    words: &[u8],
    room: &mut [u8],
    status: &mut u8,
) -> usize
    ensures answer { IsAnswered (codes "rules") words.now script.now room.old room.new status.new result }
    ensures headline { IsHeadlineOfCall (codes "rules") words.now script.now room.old room.new status.new result }
{
    answered(alloc, "rules", script, words, room, status)
}

/// What `qs play` writes: the report of a run in the optimised machine.
#[unsafe(no_mangle)]
pub extern "C" fn qs_play(
    alloc: Global,
    script: &[u8],
    words: &[u8],
    room: &mut [u8],
    status: &mut u8,
) -> usize
    ensures answer { IsAnswered (codes "play") words.now script.now room.old room.new status.new result }
    ensures headline { IsHeadlineOfCall (codes "play") words.now script.now room.old room.new status.new result }
{
    answered(alloc, "play", script, words, room, status)
}

/// What `qs syncs` writes: how many synchronisations each mode of coalescing sends, block by block.
#[unsafe(no_mangle)]
pub extern "C" fn qs_syncs(
    alloc: Global,
    script: &[u8],
    words: &[u8],
    room: &mut [u8],
    status: &mut u8,
) -> usize
    ensures answer { IsAnswered (codes "syncs") words.now script.now room.old room.new status.new result }
{
    answered(alloc, "syncs", script, words, room, status)
}

/// What `qs outcomes` writes: all that a program can come to.
#[unsafe(no_mangle)]
pub extern "C" fn qs_outcomes(
    alloc: Global,
    script: &[u8],
    words: &[u8],
    room: &mut [u8],
    status: &mut u8,
) -> usize
    ensures answer { IsAnswered (codes "outcomes") words.now script.now room.old room.new status.new result }
{
    answered(alloc, "outcomes", script, words, room, status)
}

/// What `qs ask` writes: the answer to a question about all that a program can come to, yes or no.
#[unsafe(no_mangle)]
pub extern "C" fn qs_ask(
    alloc: Global,
    script: &[u8],
    words: &[u8],
    room: &mut [u8],
    status: &mut u8,
) -> usize
    ensures answer { IsAnswered (codes "ask") words.now script.now room.old room.new status.new result }
{
    answered(alloc, "ask", script, words, room, status)
}

/// What `qs fronts` writes: where so many blocks can lead, which are parts of a large search.
#[unsafe(no_mangle)]
pub extern "C" fn qs_fronts(
    alloc: Global,
    script: &[u8],
    words: &[u8],
    room: &mut [u8],
    status: &mut u8,
) -> usize
    ensures answer { IsAnswered (codes "fronts") words.now script.now room.old room.new status.new result }
{
    answered(alloc, "fronts", script, words, room, status)
}

/// What `qs estimate` writes: how large a search can be.
#[unsafe(no_mangle)]
pub extern "C" fn qs_estimate(
    alloc: Global,
    script: &[u8],
    words: &[u8],
    room: &mut [u8],
    status: &mut u8,
) -> usize
    ensures answer { IsAnswered (codes "estimate") words.now script.now room.old room.new status.new result }
{
    answered(alloc, "estimate", script, words, room, status)
}
