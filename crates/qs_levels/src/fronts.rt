//! The configurations after so many blocks.

ghost use Rattle.std.specs.Prelude.{◌≡◌, ◌<◌, ◌≤◌, IfOk, IsErrOf, [], ◌∷◌, length};
ghost use Rattle.qs_meaning.specs.audit.Serial.{IsLegal};
ghost use Rattle.qs_outcomes.specs.Outcomes.{HasMoreThanAfter};
ghost use Rattle.qs_serial.specs.audit.NamedOrders.{order_of};
ghost use Rattle.qs_standings.specs.Standings.{IsFirst};
ghost use Rattle.qs_levels.specs.meaning.Fronts.{AreFrontsAfter};
ghost use Rattle.qs_levels.specs.meaning.Onward.{HasMoreOnward};
ghost use Rattle.qs_levels.specs.meaning.Levels.{IsNextOf, IsSomeLevel};
ghost use Rattle.qs_levels.specs.Founds.{found_in, found_of};
ghost use Rattle.qs_levels.specs.MoreFronts.{HasMoreFronts};
ghost use Rattle.qs_levels.specs.Shares.{AreGoing};

use crate::leading::led_on;
use crate::level::{Going, Level, Spot};
use crate::merging::{add, next_of};
use crate::part::LevelPart;
use crate::parts::add_part;
use crate::share::{LevelShare, share_of};
use crate::step::{Search, Step};
use crate::table::{Lead, Mark, Spare, Table, add_found};
use qs_objects::Ticket;
use qs_outcomes::OutcomesFault;
use qs_program::Program;
use qs_serial::names_order;
use qs_standings::{Standing, copied, last_blocks, placed, row_starts};
use std::alloc::{AllocError, Global};

// One standing as a part, and who goes on from it.
fn one_part(alloc: Global, mut first: Standing, going: u8) -> Result<LevelPart, AllocError>
    ensures found { IfOk result (λ part. part ≡ found_of (record { lead = record { source = 0; client = 0 }; going = going }) first ∷ []) }
{
    let lead = Lead {
        source: 0,
        client: 0,
    };
    let mut table = Table::new(alloc, Spare::new(alloc));
    add_found(&mut table, Mark { lead, going }, &mut first)?;
    let Table {
        rows: _,
        marks,
        standings,
    } = table;
    Ok(LevelPart::new(marks, standings))
}

// The level that has the only standing of a part.
fn one_spot(alloc: Global, part: LevelPart, going: Going) -> Result<Level, AllocError>
    requires one { length part ≡ 1 }
    ensures standings { IfOk result (λ level. level.standings ≡ found_in part) }
    ensures going { IfOk result (λ level. level.going ≡ going ∷ []) }
{
    let mut parts = Vec::new(alloc);
    add_part(&mut parts, part)?;
    let mut spots = Vec::new(alloc);
    add(
        &mut spots,
        Spot {
            place: 0,
            part: 0,
            going,
        },
    )?;
    Ok(Level::new(parts, spots))
}

// The level of no blocks, for so many shares.
pub(crate) fn first_level(
    alloc: Global,
    search: &Search<'_>,
    first: Standing,
    count: usize,
    limit: usize,
) -> Result<Level, OutcomesFault>
    requires first { IsFirst search.now.program.now search.now.front.now first }
    requires some { 0 < count }
    requires few { count ≤ 256 }
    ensures first { IfOk result (λ level. level.standings ≡ first ∷ []) }
    ensures going { IfOk result (λ level. AreGoing search.now.program.now count level.standings level.going) }
    ensures within { IfOk result (λ level. 1 ≤ limit) }
    ensures limit { IsErrOf result OutcomesFault.Limit → limit ≡ 0 }
    ensures order { ¬ IsErrOf result OutcomesFault.Order }
{
    search.program.keeps_sound();
    if limit == 0 {
        return Err(OutcomesFault::Limit);
    }
    let going = Going {
        clients: first.goes_on(search.program, search.last, search.front),
        share: share_of(first.begun(), count),
    };
    let part = one_part(alloc, first, going.clients)?;
    let level = one_spot(alloc, part, going)?;
    Ok(level)
}

// The level after a level, as one share. There is room for so many configurations.
fn after_level(alloc: Global, step: &Step<'_>) -> Result<Level, OutcomesFault>
    requires level { IsSomeLevel step.now.search.program.now step.now.search.front.now step.now.level.now.standings }
    requires going { AreGoing step.now.search.program.now 1 step.now.level.now.standings step.now.level.now.going }
    ensures next { IfOk result
        (λ next. IsNextOf step.now.search.program.now step.now.search.front.now step.now.level.now.standings
        next.standings) }
    ensures going { IfOk result (λ next. AreGoing step.now.search.program.now 1 next.standings next.going) }
    ensures small { IfOk result (λ next. length next.standings ≤ step.now.room) }
    ensures limit { IsErrOf result OutcomesFault.Limit
        → HasMoreOnward step.now.search.program.now step.now.search.front.now step.now.level.now.standings
        step.now.room }
    ensures order { ¬ IsErrOf result OutcomesFault.Order }
{
    let share = LevelShare {
        number: 0,
        count: 1,
    };
    let none = Spare::new(alloc);
    let part = led_on(alloc, step, share, none)?;
    let mut parts = Vec::new(alloc);
    add_part(&mut parts, part)?;
    next_of(alloc, step, parts, Vec::new(alloc))
}

// The configurations after so many blocks, by a search that begins where the program stands after a front.
fn fronts_from(
    alloc: Global,
    program: &Program,
    front: &[Ticket],
    first: Standing,
    blocks: u32,
    limit: u32,
) -> Result<Vec<Standing>, OutcomesFault>
    requires first { IsFirst program.now front.now first }
    ensures fronts { IfOk result (λ found. AreFrontsAfter program.now front.now blocks found.items) }
    ensures within { IfOk result (λ found. length found.items ≤ limit) }
    ensures few { IfOk result (λ _. ¬ HasMoreFronts program.now front.now blocks limit) }
    ensures many { IsErrOf result OutcomesFault.Limit → HasMoreFronts program.now front.now blocks limit }
    ensures order { ¬ IsErrOf result OutcomesFault.Order }
{
    program.keeps_sound();
    let last = last_blocks(alloc, program)?;
    let starts = row_starts(alloc, program)?;
    let search = Search {
        program,
        front,
        last: last.as_slice(),
        starts: starts.as_slice(),
    };
    let mut level = first_level(alloc, &search, first, 1, limit as usize)?;
    for done in 0..blocks {
        let step = Step {
            search,
            level: &level,
            room: limit as usize,
        };
        level = after_level(alloc, &step)?;
        if level.len() == 0 {
            return Ok(Vec::new(alloc));
        }
    }
    let found = level.unpacked(alloc)?;
    Ok(found)
}

/// The configurations to which orders lead that are reduced after the blocks that a list of clients names, each
/// client's in turn, and go on from these by so many blocks: each once, with its least order, and sorted by these
/// orders. `Order` comes exactly where no legal order is named, `Memory` where memory was refused. `Limit` comes where
/// there are more configurations than the limit after some number of blocks, of so many at most, and only there: what
/// lies beyond is not counted.
#[tactic(auto, using(crate::proofs::MoreFronts::more_than_fronts))]
pub fn fronts_after(
    alloc: Global,
    program: &Program,
    front: &[u8],
    blocks: u32,
    limit: u32,
) -> Result<Vec<Standing>, OutcomesFault>
    ensures fronts { IfOk result (λ found. AreFrontsAfter program.now (order_of front.now) blocks found.items) }
    ensures within { IfOk result (λ found. length found.items ≤ limit) }
    ensures few { IfOk result (λ _. ¬ HasMoreFronts program.now (order_of front.now) blocks limit) }
    ensures many { IsErrOf result OutcomesFault.Limit → HasMoreFronts program.now (order_of front.now) blocks limit }
    ensures limit { IsErrOf result OutcomesFault.Limit → HasMoreThanAfter program.now (order_of front.now) limit }
    ensures order { IsErrOf result OutcomesFault.Order → ¬ IsLegal program.now (order_of front.now) }
{
    if !names_order(program, front) {
        return Err(OutcomesFault::Order);
    }
    let first = placed(alloc, program, front)?;
    let order = copied(alloc, first.order())?;
    fronts_from(alloc, program, order.as_slice(), first, blocks, limit)
}
