//! Where a program can stand between blocks, and which block leads from where to where.

ghost use Rattle.std.specs.Prelude.{◌≡◌, ◌+◌, ◌<◌, ◌≤◌, ◌++◌, ◌∷◌, [], IfOk, OnOk, IsErrOf, Some, length, slice_get};
ghost use Rattle.qs_serial.specs.audit.NamedOrders.{order_of};
ghost use Rattle.qs_meaning.specs.audit.Serial.{IsLegal};
ghost use Rattle.qs_meaning.specs.Reduced.{goes_on};
ghost use Rattle.qs_dot.specs.Charts.{AreCharted, AreLeads, AreLeadsUpTo, AreMore, ArePlaces, IsPlaced, IsRowPlaced};
ghost use Rattle.qs_standings.specs.going.Going.{AreLast, in_byte};
ghost use Rattle.qs_outcomes.specs.Outcomes.{HasMoreThanAfter};
ghost use Rattle.qs_standings.specs.Rows.{rows_in, shape_of};
ghost use Rattle.qs_standings.specs.Standings.{GoesOn, IsFirst, IsNext, IsStanding, StandingShape, configuration_in};

use indexmap::IndexSet;
use qs_objects::Ticket;
use qs_outcomes::OutcomesFault;
use qs_program::Program;
use qs_serial::names_order;
use qs_standings::{Last, Row, Standing, copied, last_blocks, placed};
use std::alloc::{AllocError, Global};
use std::marker::Model;

/// A block that leads on: the place where it begins, the client whose next block it is, and the place where it ends.
#[derive(Clone, Copy)]
pub struct Lead {
    pub from: usize,
    pub client: u8,
    pub to: usize,
}

/// Where a program can stand between blocks, and which block leads from where to where.
pub struct Chart {
    places: Vec<Standing>,
    leads: Vec<Lead>,
}

impl Drop for Chart {
    fn drop(self) {
        let Chart {
            places: _,
            leads: _,
        } = self;
    }
}

impl Model for Chart {
    ghost use Rattle.qs_dot.specs.Charts.{ChartShape};

    ghost Value = { ChartShape };

    ghost view = { λ c. record { places = c.places.items; leads = c.leads.items } };
}

impl Chart {
    /// Where the program can stand, by number.
    pub fn places(&self) -> &[Standing]
        ensures places { result.now ≡ self.now.places }
    {
        self.places.as_slice()
    }

    /// The blocks that lead on.
    pub fn leads(&self) -> &[Lead]
        ensures leads { result.now ≡ self.now.leads }
    {
        self.leads.as_slice()
    }
}

// What a chart is made for, and does not change: a program after a front, the last blocks of its clients, and how many
// places there are at most.
#[derive(Clone, Copy)]
struct Search<'a> {
    program: &'a Program,
    front: &'a [Ticket],
    last: &'a [Last],
    limit: u32,
    ghost are_last: { AreLast program.now last.now },
}

// A chart while it is drawn, with the row of each place.
#[derive(Drop)]
struct Drawing {
    rows: IndexSet<Row>,
    places: Vec<Standing>,
    leads: Vec<Lead>,
}

// The place of a standing's row among the rows, and whether it is new.
fn row_place(rows: &mut IndexSet<Row>, row: Row) -> Result<(usize, bool), AllocError>
    ensures placed { IfOk result (λ r. IsRowPlaced (rows_in rows.old.keys) (shape_of row) r.0 r.1 (rows_in rows.new.keys)) }
{
    let Ok((place, new)) = rows.insert_full(row) else {
        return Err(AllocError);
    };
    Ok((place, new))
}

fn add<T: Drop>(list: &mut Vec<T>, item: T) -> Result<(), AllocError>
    ensures added { OnOk result (list.new.items ≡ list.old.items ++ item ∷ []) }
{
    list.push(item)?;
    Ok(())
}

// The place of a standing, which is added where none stands for its configuration.
fn place_of(
    alloc: Global,
    search: &Search<'_>,
    standing: Standing,
    rows: &mut IndexSet<Row>,
    places: &mut Vec<Standing>,
) -> Result<usize, OutcomesFault>
    requires standing { IsStanding search.now.program.now search.now.front.now standing }
    requires charted { AreCharted search.now.program.now search.now.front.now search.now.limit
        (rows_in rows.old.keys) places.old.items }
    ensures charted { OnOk result (AreCharted search.now.program.now search.now.front.now search.now.limit
        (rows_in rows.new.keys) places.new.items) }
    ensures placed { IfOk result (λ place. IsPlaced places.old.items places.new.items (configuration_in standing) place) }
    ensures limit { IsErrOf result OutcomesFault.Limit
        → HasMoreThanAfter search.now.program.now search.now.front.now search.now.limit }
    ensures order { ¬ IsErrOf result OutcomesFault.Order }
{
    search.program.keeps_sound();
    let (place, new) = row_place(rows, standing.row(alloc, search.program, search.front)?)?;
    if !new {
        return Ok(place);
    }
    if places.len() >= search.limit as usize {
        return Err(OutcomesFault::Limit);
    }
    add(places, standing)?;
    Ok(place)
}

// Where the next block of a client leads that goes on.
fn next_of(
    alloc: Global,
    search: &Search<'_>,
    standing: &Standing,
    client: u8,
) -> Result<Standing, AllocError>
    requires client { client < length search.now.program.now.clients }
    requires standing { IsStanding search.now.program.now search.now.front.now standing.now }
    requires goes { GoesOn search.now.program.now standing.now client }
    ensures next { IfOk result (IsNext search.now.program.now search.now.front.now standing.now client) }
{
    let next = standing.next(alloc, search.program, search.front, client)?;
    Ok(next)
}

// Adds the lead of a client from a place, if it goes on there.
fn add_lead(
    alloc: Global,
    search: &Search<'_>,
    at: usize,
    goes: u8,
    client: u8,
    drawing: &mut Drawing,
) -> Result<(), OutcomesFault>
    requires client { client < length search.now.program.now.clients }
    requires at { at < length drawing.old.places.items }
    requires goes { (s : StandingShape) → slice_get drawing.old.places.items at ≡ Some s → in_byte goes
        ≡ goes_on search.now.program.now (configuration_in s).begun }
    requires charted { AreCharted search.now.program.now search.now.front.now search.now.limit
        (rows_in drawing.old.rows.keys) drawing.old.places.items }
    requires leads { AreLeadsUpTo search.now.program.now drawing.old.places.items drawing.old.leads.items at client }
    ensures charted { OnOk result (AreCharted search.now.program.now search.now.front.now search.now.limit
        (rows_in drawing.new.rows.keys) drawing.new.places.items) }
    ensures more { OnOk result (AreMore drawing.old.places.items drawing.new.places.items) }
    ensures leads { OnOk result (AreLeadsUpTo search.now.program.now drawing.new.places.items drawing.new.leads.items at
        (client + 1)) }
    ensures limit { IsErrOf result OutcomesFault.Limit
        → HasMoreThanAfter search.now.program.now search.now.front.now search.now.limit }
    ensures order { ¬ IsErrOf result OutcomesFault.Order }
{
    search.program.keeps_sound();
    if (goes >> client) & 1 == 1 {
        let next = next_of(alloc, search, &drawing.places[at], client)?;
        let to = place_of(alloc, search, next, &mut drawing.rows, &mut drawing.places)?;
        let from = at;
        add(&mut drawing.leads, Lead { from, client, to })?;
    }
    Ok(())
}

// Adds the leads of all who go on from a place.
fn add_leads(
    alloc: Global,
    search: &Search<'_>,
    at: usize,
    drawing: &mut Drawing,
) -> Result<(), OutcomesFault>
    requires at { at < length drawing.old.places.items }
    requires charted { AreCharted search.now.program.now search.now.front.now search.now.limit
        (rows_in drawing.old.rows.keys) drawing.old.places.items }
    requires leads { AreLeadsUpTo search.now.program.now drawing.old.places.items drawing.old.leads.items at 0 }
    ensures charted { OnOk result (AreCharted search.now.program.now search.now.front.now search.now.limit
        (rows_in drawing.new.rows.keys) drawing.new.places.items) }
    ensures more { OnOk result (AreMore drawing.old.places.items drawing.new.places.items) }
    ensures leads { OnOk result (AreLeadsUpTo search.now.program.now drawing.new.places.items drawing.new.leads.items
        (at + 1) 0) }
    ensures limit { IsErrOf result OutcomesFault.Limit
        → HasMoreThanAfter search.now.program.now search.now.front.now search.now.limit }
    ensures order { ¬ IsErrOf result OutcomesFault.Order }
{
    let program = search.program;
    program.keeps_sound();
    let goes = drawing.places[at].goes_on(program, search.last, search.front);
    for client in 0..program.clients() as u8 {
        add_lead(alloc, search, at, goes, client, drawing)?;
    }
    Ok(())
}

// The chart of what comes after a front, drawn from where the program stands after it.
fn chart_from(
    alloc: Global,
    program: &Program,
    front: &[Ticket],
    first: Standing,
    limit: u32,
) -> Result<Chart, OutcomesFault>
    requires first { IsFirst program.now front.now first }
    ensures places { IfOk result (λ chart. ArePlaces program.now front.now chart.places) }
    ensures leads { IfOk result (λ chart. AreLeads program.now chart.places chart.leads) }
    ensures within { IfOk result (λ chart. length chart.places ≤ limit) }
    ensures limit { IsErrOf result OutcomesFault.Limit → HasMoreThanAfter program.now front.now limit }
    ensures order { ¬ IsErrOf result OutcomesFault.Order }
{
    program.keeps_sound();
    let last = last_blocks(alloc, program)?;
    let search = Search {
        program,
        front,
        last: last.as_slice(),
        limit,
    };
    let mut drawing = Drawing {
        rows: IndexSet::new(alloc),
        places: Vec::new(alloc),
        leads: Vec::new(alloc),
    };
    let _place = place_of(
        alloc,
        &search,
        first,
        &mut drawing.rows,
        &mut drawing.places,
    )?;
    let mut at = 0;
    while at < drawing.places.len() {
        add_leads(alloc, &search, at, &mut drawing)?;
        at += 1;
    }
    let Drawing {
        rows: _,
        places,
        leads,
    } = drawing;
    Ok(Chart { places, leads })
}

/// The chart of a program after the blocks that a list of clients names, each client's in turn: the different
/// configurations to which orders lead that are reduced after them, and from each the blocks that lead on. `Order`
/// comes exactly where no legal order is named, `Limit` only where there are more configurations than the limit,
/// `Memory` where memory was refused.
pub fn chart_after(
    alloc: Global,
    program: &Program,
    front: &[u8],
    limit: u32,
) -> Result<Chart, OutcomesFault>
    ensures legal { IfOk result (λ chart. IsLegal program.now (order_of front.now)) }
    ensures places { IfOk result (λ chart. ArePlaces program.now (order_of front.now) chart.places) }
    ensures leads { IfOk result (λ chart. AreLeads program.now chart.places chart.leads) }
    ensures within { IfOk result (λ chart. length chart.places ≤ limit) }
    ensures limit { IsErrOf result OutcomesFault.Limit → HasMoreThanAfter program.now (order_of front.now) limit }
    ensures order { IsErrOf result OutcomesFault.Order → ¬ IsLegal program.now (order_of front.now) }
{
    if !names_order(program, front) {
        return Err(OutcomesFault::Order);
    }
    let first = placed(alloc, program, front)?;
    let order = copied(alloc, first.order())?;
    chart_from(alloc, program, order.as_slice(), first, limit)
}
