//! A level is led on: to where the next blocks of those who go on lead, as far as this is in a share.

ghost use Rattle.std.specs.Prelude.{◌≡◌, ◌<◌, ◌≤◌, true, IfOk, OnOk, IsErrOf, length, slice_index_or};
ghost use Rattle.std.specs.List.{AllByRecursion};
ghost use Rattle.qs_outcomes.specs.LeastOrders.{AreSorted};
ghost use Rattle.qs_meaning.specs.Reduced.{goes_on};
ghost use Rattle.qs_standings.specs.going.Going.{in_byte};
ghost use Rattle.qs_standings.specs.Rows.{drafted};
ghost use Rattle.qs_standings.specs.Standings.{GoesOn, HasNext, IsNext, IsStanding, configuration_in, row_of};
ghost use Rattle.qs_levels.specs.Shares.{AreGoing, AreMasks, AreTaken, ReservesAgain};
ghost use Rattle.qs_levels.specs.Founds.{no_standing};
ghost use Rattle.qs_levels.specs.meaning.Onward.{HasMoreOnward};
ghost use Rattle.qs_levels.specs.Leads.{AreEven, AreKnown, IsLedOn, IsLedTooFar, IsLedUpTo, IsOverfull, IsPartOf, TableShape, tabled};

use crate::part::LevelPart;
use crate::share::{LevelShare, masks, taken};
use crate::step::{Search, Step};
use crate::table::{Lead, Mark, Spare, Table, add_found, note};
use qs_objects::Ticket;
use qs_outcomes::OutcomesFault;
use qs_program::Program;
use qs_standings::{Scratch, Standing, was_seen};
use std::alloc::Global;

// Whether a client has a block left behind its next one that reserves the same objects.
fn reserves_again(program: &Program, front: &[Ticket], standing: &Standing, client: u8) -> bool
    requires client { client < length program.now.clients }
    requires standing { IsStanding program.now front.now standing.now }
    requires left { HasNext program.now standing.now client }
    ensures again { result ≡ true → ReservesAgain program.now (configuration_in standing.now).begun client }
{
    program.keeps_sound();
    let index = standing.begun()[usize::from(client)];
    usize::from(index) + 1 < program.blocks_of(client)
        && program.block(client, index).reserved() == program.block(client, index + 1).reserved()
}

// What a thread writes into again and again, beside what it finds: the standing that it leads on, where a next block
// leads from there, and scratch.
#[derive(Drop)]
struct Workspace {
    standing: Standing,
    next: Standing,
    scratch: Scratch,
}

// A standing that is led on: its place in the level, who goes on from it, and who of these leads to a configuration of
// the share, client c in bit c.
#[derive(Clone, Copy)]
struct Source<'a> {
    place: usize,
    standing: &'a Standing,
    going: u8,
    taken: u8,
}

// Who goes on where a client's next block has led: those who went on before it, where the block behind it reserves the
// same objects. So who goes on is seldom found anew.
fn goes_on_next(search: &Search<'_>, source: &Source<'_>, client: u8, next: &Standing) -> u8
    requires client { client < length search.now.program.now.clients }
    requires standing { IsStanding search.now.program.now search.now.front.now source.now.standing.now }
    requires going { in_byte source.now.going ≡ goes_on search.now.program.now
        (configuration_in source.now.standing.now).begun }
    requires goes { GoesOn search.now.program.now source.now.standing.now client }
    requires next { IsNext search.now.program.now search.now.front.now source.now.standing.now client next.now }
    ensures going { in_byte result ≡ goes_on search.now.program.now (configuration_in next.now).begun }
{
    if reserves_again(search.program, search.front, source.standing, client) {
        return source.going;
    }
    next.goes_on(search.program, search.last, search.front)
}

// Adds where the next block of a client who goes on leads, where its row is not in the table.
fn lead_client(
    alloc: Global,
    step: &Step<'_>,
    source: &Source<'_>,
    client: u8,
    next: &mut Standing,
    scratch: &mut Scratch,
    table: &mut Table,
) -> Result<(), OutcomesFault>
    requires client { client < length step.now.search.program.now.clients }
    requires standing { IsStanding step.now.search.program.now step.now.search.front.now source.now.standing.now }
    requires going { in_byte source.now.going ≡ goes_on step.now.search.program.now
        (configuration_in source.now.standing.now).begun }
    requires goes { GoesOn step.now.search.program.now source.now.standing.now client }
    requires base { drafted scratch.old.base ≡ row_of step.now.search.program.now source.now.standing.now }
    requires small { length (tabled table.old).rows ≤ step.now.room }
    requires known { AreKnown step.now.search.program.now (tabled table.old).found }
    requires even { AreEven table.old }
    ensures base { scratch.new.base ≡ scratch.old.base }
    ensures led { OnOk result (IsLedOn step.now.search.program.now step.now.search.front.now source.now.standing.now
        (record { source = source.now.place; client = client }) (tabled table.old) (tabled table.new)) }
    ensures small { OnOk result (length (tabled table.new).rows ≤ step.now.room) }
    ensures known { OnOk result (AreKnown step.now.search.program.now (tabled table.new).found) }
    ensures even { OnOk result (AreEven table.new) }
    ensures limit { IsErrOf result OutcomesFault.Limit
        → (after : TableShape) × IsLedOn step.now.search.program.now step.now.search.front.now source.now.standing.now
        (record { source = source.now.place; client = client }) (tabled table.old) after
        × IsOverfull step.now.room after }
    ensures order { ¬ IsErrOf result OutcomesFault.Order }
{
    let program = step.search.program;
    let front = step.search.front;
    let standing = source.standing;
    standing.run_next(
        alloc,
        program,
        front,
        client,
        &mut scratch.values,
        &mut scratch.left,
    )?;
    standing.write_next_row(program, front, client, step.search.starts, scratch)?;
    if was_seen(&table.rows, &scratch.hints, &scratch.row) {
        return Ok(());
    }
    if !note(
        alloc,
        &scratch.row,
        step.room,
        &mut scratch.hints,
        &mut table.rows,
    )? {
        return Ok(());
    }
    standing.put_next(
        program,
        front,
        client,
        &scratch.values,
        &mut scratch.left,
        next,
    )?;
    let lead = Lead {
        source: source.place,
        client,
    };
    let going = goes_on_next(&step.search, source, client, next);
    add_found(table, Mark { lead, going }, next)?;
    Ok(())
}

// Leads the standing at a place on, by each of the clients in turn that lead to a configuration of the share.
fn lead_standing(
    alloc: Global,
    step: &Step<'_>,
    share: LevelShare,
    source: &Source<'_>,
    next: &mut Standing,
    scratch: &mut Scratch,
    table: &mut Table,
) -> Result<(), OutcomesFault>
    requires standing { IsStanding step.now.search.program.now step.now.search.front.now source.now.standing.now }
    requires going { in_byte source.now.going ≡ goes_on step.now.search.program.now
        (configuration_in source.now.standing.now).begun }
    requires taken { AreTaken step.now.search.program.now share.number share.count source.now.standing.now
        source.now.taken }
    requires small { length (tabled table.old).rows ≤ step.now.room }
    requires known { AreKnown step.now.search.program.now (tabled table.old).found }
    requires even { AreEven table.old }
    ensures led { OnOk result
        (IsLedUpTo step.now.search.program.now step.now.search.front.now share.number share.count
        source.now.standing.now source.now.place (length step.now.search.program.now.clients) (tabled table.old)
        (tabled table.new)) }
    ensures small { OnOk result (length (tabled table.new).rows ≤ step.now.room) }
    ensures known { OnOk result (AreKnown step.now.search.program.now (tabled table.new).found) }
    ensures even { OnOk result (AreEven table.new) }
    ensures limit { IsErrOf result OutcomesFault.Limit
        → IsLedTooFar step.now.search.program.now step.now.search.front.now share.number share.count
        source.now.standing.now source.now.place step.now.room (tabled table.old) }
    ensures order { ¬ IsErrOf result OutcomesFault.Order }
{
    let program = step.search.program;
    program.keeps_sound();
    let standing = source.standing;
    standing.write_row(program, step.search.front, &mut scratch.base)?;
    for client in 0..program.clients() as u8 {
        if (source.taken >> client) & 1 == 1 {
            lead_client(alloc, step, source, client, next, scratch, table)?;
        }
    }
    Ok(())
}

// Leads the standing at a place of a level on, where somebody leads from there to a configuration of the share.
fn lead_place(
    alloc: Global,
    step: &Step<'_>,
    place: usize,
    share: LevelShare,
    masks: &[u8],
    work: &mut Workspace,
    table: &mut Table,
) -> Result<(), OutcomesFault>
    requires level { AllByRecursion
        (IsStanding step.now.search.program.now step.now.search.front.now) step.now.level.now.standings }
    requires going { AreGoing step.now.search.program.now share.count step.now.level.now.standings
        step.now.level.now.going }
    requires within { place < length step.now.level.now.standings }
    requires some { 0 < share.count }
    requires masks { AreMasks share.number share.count masks.now }
    requires small { length (tabled table.old).rows ≤ step.now.room }
    requires known { AreKnown step.now.search.program.now (tabled table.old).found }
    requires even { AreEven table.old }
    ensures led { OnOk result (IsLedUpTo step.now.search.program.now step.now.search.front.now share.number share.count
        (slice_index_or step.now.level.now.standings place no_standing) place
        (length step.now.search.program.now.clients) (tabled table.old) (tabled table.new)) }
    ensures small { OnOk result (length (tabled table.new).rows ≤ step.now.room) }
    ensures known { OnOk result (AreKnown step.now.search.program.now (tabled table.new).found) }
    ensures even { OnOk result (AreEven table.new) }
    ensures limit { IsErrOf result OutcomesFault.Limit
        → IsLedTooFar step.now.search.program.now step.now.search.front.now share.number share.count
        (slice_index_or step.now.level.now.standings place no_standing) place step.now.room (tabled table.old) }
    ensures order { ¬ IsErrOf result OutcomesFault.Order }
{
    let level = step.level;
    let taken = taken(step.search.program, level, place, share, masks);
    if taken == 0 {
        return Ok(());
    }
    level.load(alloc, place, &mut work.standing)?;
    let source = Source {
        place,
        standing: &work.standing,
        going: level.going(place).clients,
        taken,
    };
    lead_standing(
        alloc,
        step,
        share,
        &source,
        &mut work.next,
        &mut work.scratch,
        table,
    )
}

/// Leads a level on to the configurations of a share. There is room for so many of them. The memory of a part that is
/// done with is used for what is found.
pub(crate) fn led_on(
    alloc: Global,
    step: &Step<'_>,
    share: LevelShare,
    spare: Spare,
) -> Result<LevelPart, OutcomesFault>
    requires level { AllByRecursion
        (IsStanding step.now.search.program.now step.now.search.front.now) step.now.level.now.standings }
    requires sorted { AreSorted step.now.level.now.standings }
    requires going { AreGoing step.now.search.program.now share.count step.now.level.now.standings
        step.now.level.now.going }
    requires some { 0 < share.count }
    requires few { share.count ≤ 256 }
    ensures part { IfOk result
        (IsPartOf step.now.search.program.now step.now.search.front.now share.number share.count
        step.now.level.now.standings) }
    ensures limit { IsErrOf result OutcomesFault.Limit
        → HasMoreOnward step.now.search.program.now step.now.search.front.now step.now.level.now.standings
        step.now.room }
    ensures order { ¬ IsErrOf result OutcomesFault.Order }
{
    step.search.program.keeps_sound();
    let masks = masks(alloc, share)?;
    let mut work = Workspace {
        standing: Standing::empty(alloc),
        next: Standing::empty(alloc),
        scratch: Scratch::new(alloc, step.search.program)?,
    };
    let mut table = Table::new(alloc, spare);
    for place in 0..step.level.len() {
        lead_place(
            alloc,
            step,
            place,
            share,
            masks.as_slice(),
            &mut work,
            &mut table,
        )?;
    }
    let Table {
        rows: _,
        marks,
        standings,
    } = table;
    Ok(LevelPart::new(marks, standings))
}
