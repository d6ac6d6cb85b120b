//! The search level by level.

ghost use Rattle.std.specs.Prelude.{◌<◌, ◌≤◌, IfOk, IsErrOf};
ghost use Rattle.qs_meaning.specs.audit.Serial.{IsLegal};
ghost use Rattle.qs_outcomes.specs.Outcomes.{AreOutcomesAfter, HasMoreThanAfter};
ghost use Rattle.qs_serial.specs.audit.NamedOrders.{order_of};
ghost use Rattle.qs_standings.specs.Standings.{IsFirst};

use crate::fronts::first_level;
use crate::level::Spares;
use crate::parts::next_level;
use crate::step::{Search, Step};
use qs_outcomes::{AllOutcomes, OutcomesFault, Watcher};
use qs_program::Program;
use qs_serial::names_order;
use qs_standings::{Standing, copied, last_blocks, placed, row_starts};
use std::alloc::Global;
use std::thread::Threads;

// More threads than so many are not made.
const MOST_THREADS: usize = 256;

// All outcomes after a front, by a search that begins where the program stands after it.
fn search_from<R: Threads + Sync, W: Watcher>(
    rt: &R,
    alloc: Global,
    search: &Search<'_>,
    first: Standing,
    limit: u32,
    threads: usize,
    watcher: &mut W,
) -> Result<AllOutcomes, OutcomesFault>
    requires first { IsFirst search.now.program.now search.now.front.now first }
    requires threads { 0 < threads }
    requires few { threads ≤ 256 }
    ensures outcomes { IfOk result (AreOutcomesAfter search.now.program.now search.now.front.now) }
    ensures within { IfOk result (λ all. all.configurations ≤ limit) }
    ensures limit { IsErrOf result OutcomesFault.Limit
        → HasMoreThanAfter search.now.program.now search.now.front.now limit }
    ensures order { ¬ IsErrOf result OutcomesFault.Order }
{
    search.program.keeps_sound();
    let limit = limit as usize;
    let mut level = first_level(alloc, search, first, threads, limit)?;
    let mut noted = 1;
    watcher.noted(noted);
    let none = Spares {
        parts: Vec::new(alloc),
        spots: Vec::new(alloc),
    };
    let step = Step {
        search: *search,
        level: &level,
        room: limit - noted,
    };
    let mut next = next_level(rt, alloc, &step, threads, none)?;
    'levels: while next.len() > 0 {
        noted += next.len();
        watcher.noted(noted);
        let spare = level.into_spare(alloc)?;
        level = next;
        let step = Step {
            search: *search,
            level: &level,
            room: limit - noted,
        };
        next = next_level(rt, alloc, &step, threads, spare)?;
    }
    let found = level.unpacked(alloc)?;
    Ok(AllOutcomes::new(found, noted))
}

/// All outcomes of a program after the blocks that a list of clients names, each client's in turn, as
/// `qs_outcomes::outcomes_watched` finds them, by so many threads: whatever their number, the list is the same. The
/// watcher hears, level by level, how many configurations were noted.
pub fn outcomes_by_levels<R: Threads + Sync, W: Watcher>(
    rt: &R,
    alloc: Global,
    program: &Program,
    front: &[u8],
    limit: u32,
    threads: usize,
    watcher: &mut W,
) -> Result<AllOutcomes, OutcomesFault>
    requires threads { 0 < threads }
    ensures outcomes { IfOk result (λ all. AreOutcomesAfter program.now (order_of front.now) all) }
    ensures within { IfOk result (λ all. all.configurations ≤ limit) }
    ensures limit { IsErrOf result OutcomesFault.Limit → HasMoreThanAfter program.now (order_of front.now) limit }
    ensures order { IsErrOf result OutcomesFault.Order → ¬ IsLegal program.now (order_of front.now) }
{
    if !names_order(program, front) {
        return Err(OutcomesFault::Order);
    }
    let first = placed(alloc, program, front)?;
    let order = copied(alloc, first.order())?;
    let last = last_blocks(alloc, program)?;
    let starts = row_starts(alloc, program)?;
    let search = Search {
        program,
        front: order.as_slice(),
        last: last.as_slice(),
        starts: starts.as_slice(),
    };
    let threads = threads.min(MOST_THREADS);
    search_from(rt, alloc, &search, first, limit, threads, watcher)
}
