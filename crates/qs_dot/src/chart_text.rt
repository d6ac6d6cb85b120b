//! The chart of a program as a drawing, in the DOT language of graphviz.

ghost use Rattle.std.specs.Prelude.{◌≡◌, ◌<◌, ◌++◌, codes, decimal, flat_map, length, slice_index_or, IfOk, OnOk, IsErrOf};
ghost use Rattle.std.specs.List.{AllByRecursion};
ghost use Rattle.qs_serial.specs.audit.NamedOrders.{order_of};
ghost use Rattle.qs_meaning.specs.audit.Serial.{IsLegal};
ghost use Rattle.qs_outcomes.specs.Outcomes.{HasMoreThanAfter, HasPlaces};
ghost use Rattle.qs_text.specs.audit.Texts.{texts_up_to};
ghost use Rattle.qs_dot.specs.ChartDot.{IsChartDot, block_of, chart_text, close_text, colours_text, held_text, layout_text, lead_line, leads_on, mark_text, name_end, name_start, no_place, number_text, place_line};
ghost use Rattle.qs_dot.specs.EndText.{end_text, number_in};

use crate::chart::{Chart, Lead, chart_after};
use crate::end_text::{end_text, number_in};
use crate::short_text::{any_differs, clients_text, objects_text};
use itoa::Buffer;
use qs_outcomes::{OutcomesFault, outcomes_after};
use qs_program::Program;
use qs_standings::Standing;
use qs_text::{client_name, put, put_all};
use std::alloc::{AllocError, Global};

/// So many places a drawing may have that is to be looked at.
pub const MOST_PLACES: u32 = 200;

// More places than this are drawn close together.
const MOST_ROOMY: usize = 12;

// And more than this from left to right.
const MOST_WIDE: usize = 50;

// Whether a block leads on from a place.
fn leads_on(leads: &[Lead], place: usize) -> bool
    ensures leads { result ≡ leads_on leads.now place }
{
    leads.iter().any(|lead| lead.from == place)
}

fn mark(on: bool) -> &'static [u8]
    ensures mark { result.now ≡ mark_text on }
{
    if on { b"" } else { b", peripheries=2" }
}

// An outcome, by its number among all outcomes.
fn put_end(
    alloc: Global,
    out: &mut Vec<u8>,
    program: &Program,
    found: &[Standing],
    standing: &Standing,
) -> Result<(), AllocError>
    requires found { AllByRecursion (HasPlaces program.now) found.now }
    requires places { HasPlaces program.now standing.now }
    ensures ok { OnOk result (out.new.items
        ≡ out.old.items ++ (codes "outcome " ++ decimal (number_in program.now (end_text program.now standing.now) found.now))) }
{
    let text = end_text(alloc, program, standing)?;
    let number = number_in(alloc, program, text.as_slice(), found)?;
    let mut buffer = Buffer::new();
    put_all(out, &[b"outcome ", buffer.format(number).as_bytes()])
}

// The number of a place.
fn put_number(
    alloc: Global,
    out: &mut Vec<u8>,
    program: &Program,
    found: &[Standing],
    on: bool,
    place: usize,
    standing: &Standing,
) -> Result<(), AllocError>
    requires found { AllByRecursion (HasPlaces program.now) found.now }
    requires places { HasPlaces program.now standing.now }
    ensures ok { OnOk result (out.new.items ≡ out.old.items ++ number_text program.now found.now on place standing.now) }
{
    if on {
        let mut buffer = Buffer::new();
        put(out, buffer.format(place).as_bytes())
    } else {
        put_end(alloc, out, program, found, standing)
    }
}

// What a place says of its objects and clients.
fn put_held(
    alloc: Global,
    out: &mut Vec<u8>,
    program: &Program,
    places: &[Standing],
    on: bool,
    standing: &Standing,
) -> Result<(), AllocError>
    requires all { AllByRecursion (HasPlaces program.now) places.now }
    requires places { HasPlaces program.now standing.now }
    ensures ok { OnOk result (out.new.items ≡ out.old.items ++ held_text program.now places.now on standing.now) }
{
    let objects = objects_text(alloc, program, standing)?;
    let clients = clients_text(alloc, program, standing)?;
    put(out, objects.as_slice())?;
    if on
        && !any_differs(
            alloc,
            program,
            places,
            objects.as_slice(),
            clients.as_slice(),
        )?
    {
        Ok(())
    } else {
        put(out, clients.as_slice())
    }
}

// The beginning of a place's line, up to its label.
fn put_head(out: &mut Vec<u8>, place: usize) -> Result<(), AllocError>
    ensures ok { OnOk result (out.new.items ≡ out.old.items ++ (codes "  n" ++ decimal place ++ codes " [label=\"")) }
{
    let mut buffer = Buffer::new();
    put_all(
        out,
        &[b"  n", buffer.format(place).as_bytes(), b" [label=\""],
    )
}

fn place_at(places: &[Standing], place: usize) -> &Standing
    requires { place < length places.now }
    ensures standing { result.now ≡ slice_index_or places.now place no_place }
{
    &places[place]
}

fn put_place(
    alloc: Global,
    out: &mut Vec<u8>,
    program: &Program,
    found: &[Standing],
    chart: &Chart,
    place: usize,
) -> Result<(), AllocError>
    requires found { AllByRecursion (HasPlaces program.now) found.now }
    requires places { AllByRecursion (HasPlaces program.now) chart.now.places }
    requires place { place < length chart.now.places }
    ensures ok { OnOk result (out.new.items ≡ out.old.items ++ place_line program.now found.now chart.now place) }
{
    let on = leads_on(chart.leads(), place);
    let standing = place_at(chart.places(), place);
    put_head(out, place)?;
    put_number(alloc, out, program, found, on, place, standing)?;
    put_held(alloc, out, program, chart.places(), on, standing)?;
    put_all(out, &[b"\"", mark(on), b"];\n"])
}

fn put_places(
    alloc: Global,
    out: &mut Vec<u8>,
    program: &Program,
    found: &[Standing],
    chart: &Chart,
) -> Result<(), AllocError>
    requires found { AllByRecursion (HasPlaces program.now) found.now }
    requires places { AllByRecursion (HasPlaces program.now) chart.now.places }
    ensures ok { OnOk result (out.new.items
        ≡ out.old.items ++ texts_up_to (length chart.now.places) (place_line program.now found.now chart.now)) }
{
    for place in 0..chart.places().len() {
        put_place(alloc, out, program, found, chart, place)?;
    }
    Ok(())
}

// What stands before a block's name at an edge.
fn name_start() -> &'static [u8]
    ensures start { result.now ≡ name_start }
{
    b" [label=<<table border=\"0\" bgcolor=\"#dfe5ec\"><tr><td>"
}

// And what stands after it.
fn name_end() -> &'static [u8]
    ensures end { result.now ≡ name_end }
{
    b"</td></tr></table>>];\n"
}

// From which place to which a lead goes.
fn put_way(out: &mut Vec<u8>, lead: &Lead) -> Result<(), AllocError>
    ensures ok { OnOk result (out.new.items
        ≡ out.old.items ++ (codes "  n" ++ decimal lead.now.from ++ codes " -> n" ++ decimal lead.now.to)) }
{
    let mut from = Buffer::new();
    let mut to = Buffer::new();
    put_all(
        out,
        &[
            b"  n",
            from.format(lead.from).as_bytes(),
            b" -> n",
            to.format(lead.to).as_bytes(),
        ],
    )
}

// The number of the block that leads on, among those of its client.
fn block_of(places: &[Standing], lead: &Lead) -> u8
    ensures block { result ≡ block_of places.now lead.now }
{
    match places.get(lead.from) {
        Some(standing) => begun_by(standing.begun(), lead.client),
        None => 0,
    }
}

// How many blocks a client has begun.
fn begun_by(begun: &[u8], client: u8) -> u8
    ensures begun { result ≡ slice_index_or begun.now client 0 }
{
    begun.get(usize::from(client)).copied().unwrap_or(0)
}

fn put_lead(
    out: &mut Vec<u8>,
    program: &Program,
    places: &[Standing],
    lead: &Lead,
) -> Result<(), AllocError>
    ensures ok { OnOk result (out.new.items ≡ out.old.items ++ lead_line program.now places.now lead.now) }
{
    let mut block = Buffer::new();
    put_way(out, lead)?;
    put(out, name_start())?;
    put(out, client_name(program, lead.client))?;
    put_all(
        out,
        &[
            b" ",
            block.format(block_of(places, lead)).as_bytes(),
            name_end(),
        ],
    )
}

fn put_leads(
    out: &mut Vec<u8>,
    program: &Program,
    places: &[Standing],
    leads: &[Lead],
) -> Result<(), AllocError>
    ensures ok { OnOk result (out.new.items ≡ out.old.items ++ flat_map (lead_line program.now places.now) leads.now) }
{
    for lead in leads {
        put_lead(out, program, places, lead)?;
    }
    Ok(())
}

// How close together so many places are drawn.
fn close(places: usize) -> &'static [u8]
    ensures close { result.now ≡ close_text places }
{
    if places > MOST_ROOMY {
        b"  graph [nodesep=0.1, ranksep=0.3];\n  node [fontsize=11, margin=\"0.08,0.04\"];\n  edge [fontsize=10];\n"
    } else {
        b""
    }
}

// How a drawing of so many places is laid out.
fn layout(places: usize) -> &'static [u8]
    ensures layout { result.now ≡ layout_text places }
{
    if places > MOST_WIDE {
        b"  graph [rankdir=LR];\n  graph [stylesheet=\"data:text/css,@media%20print{svg{width:100vw;height:100vh}}\"];\n"
    } else {
        b""
    }
}

fn colours() -> &'static [u8]
    ensures colours { result.now ≡ colours_text }
{
    b"  graph [bgcolor=transparent];\n  node [shape=box, style=filled, fillcolor=\"#dfe5ec\", color=\"#747c88\", fontcolor=\"#16181c\"];\n  edge [color=\"#747c88\", fontcolor=\"#16181c\"];\n"
}

// The beginning of a drawing, which says how it is drawn.
fn put_look(out: &mut Vec<u8>, places: usize) -> Result<(), AllocError>
    ensures ok { OnOk result (out.new.items ≡ out.old.items ++ (codes "digraph outcomes {\n" ++ colours_text ++ close_text places ++ layout_text places)) }
{
    put(out, b"digraph outcomes {\n")?;
    put(out, colours())?;
    put(out, close(places))?;
    put(out, layout(places))
}

// The text of a chart, with the numbers of a list of outcomes.
fn drawn(
    alloc: Global,
    program: &Program,
    found: &[Standing],
    chart: &Chart,
) -> Result<Vec<u8>, AllocError>
    requires found { AllByRecursion (HasPlaces program.now) found.now }
    requires places { AllByRecursion (HasPlaces program.now) chart.now.places }
    ensures text { IfOk result (λ bytes. bytes.items ≡ chart_text program.now found.now chart.now) }
{
    let mut out = Vec::new(alloc);
    put_look(&mut out, chart.places().len())?;
    put_places(alloc, &mut out, program, found, chart)?;
    put_leads(&mut out, program, chart.places(), chart.leads())?;
    put(&mut out, b"}\n")?;
    Ok(out)
}

/// The configurations of a program after the blocks that a list of clients names, each client's in turn, as one drawing
/// in the DOT language, which graphviz draws: a place for each with what the objects hold there, and the clients'
/// variables where they alone tell it from another place; where it is an outcome a second outline, its number among all
/// outcomes and the clients' variables; and an edge for each block that leads on, with its client's name and the
/// block's number. More places than 12 are drawn close together. `Order` comes exactly where no legal order is named,
/// `Limit` only where there are more configurations than the limit, `Memory` where memory was refused.
pub fn chart_dot(
    alloc: Global,
    program: &Program,
    front: &[u8],
    limit: u32,
) -> Result<Vec<u8>, OutcomesFault>
    ensures text { IfOk result (λ bytes. IsChartDot program.now limit front.now bytes.items) }
    ensures limit { IsErrOf result OutcomesFault.Limit → HasMoreThanAfter program.now (order_of front.now) limit }
    ensures order { IsErrOf result OutcomesFault.Order → ¬ IsLegal program.now (order_of front.now) }
{
    let all = outcomes_after(alloc, program, front, limit)?;
    let chart = chart_after(alloc, program, front, limit)?;
    let text = drawn(alloc, program, all.found(), &chart)?;
    Ok(text)
}
