//! The line of a step of the optimised machine.

ghost use Rattle.std.specs.Prelude.{◌≡◌, ◌++◌, OnOk, flat_map};
ghost use Rattle.qs_steps.specs.CoreSteps.{core_effect_in, core_effect_json, core_effect_text, core_told_or_none, requests_field};
ghost use Rattle.qs_steps.specs.Forms.{at_field, between as between_two, does_json, of_field, request_in, requests_in};
ghost use Rattle.qs_steps.specs.Marks.{marked_requests};
ghost use Rattle.qs_steps.specs.Telling.{core_line};
ghost use Rattle.qs_steps.specs.Told.{step_line, ticket_text};
ghost use Rattle.qs_steps.specs.declared.wanted.Form.TheVariants.{Json};

use crate::forms::{between, put_at, put_does, put_does_ticket, put_of, put_request_in};
use crate::lines::{
    end_of_line, put_client, put_head, put_idle, put_object, put_reserves, put_reserves_json,
    put_ticket,
};
use crate::marks::put_all_marked;
use crate::telling::Turn;
use crate::wanted::Form;
use qs_core::CoreEffect;
use qs_objects::{Object, Request, Ticket};
use qs_program::Program;
use qs_text::put;
use std::alloc::AllocError;

// Further requests, each after what stands between two.
fn put_other_requests(
    out: &mut Vec<u8>,
    program: &Program,
    form: Form,
    requests: &[Request],
) -> Result<(), AllocError>
    ensures ok { OnOk result (out.new.items ≡ out.old.items ++ flat_map (λ r. between_two form ++ request_in form program.now r) requests.now) }
{
    for request in requests {
        put(out, between(form))?;
        put_request_in(out, program, form, request)?;
    }
    Ok(())
}

/// Puts requests that their object has not run yet.
pub(crate) fn put_requests(
    out: &mut Vec<u8>,
    program: &Program,
    form: Form,
    requests: &[Request],
) -> Result<(), AllocError>
    ensures ok { OnOk result (out.new.items ≡ out.old.items ++ requests_in form program.now requests.now) }
{
    match requests {
        [] => Ok(()),
        [first, others @ ..] => {
            put_request_in(out, program, form, first)?;
            put_other_requests(out, program, form, others)
        }
    }
}

// Words and a ticket.
fn put_block(
    out: &mut Vec<u8>,
    program: &Program,
    words: &[u8],
    ticket: Ticket,
) -> Result<(), AllocError>
    ensures ok { OnOk result (out.new.items ≡ out.old.items ++ (words.now ++ ticket_text program.now ticket)) }
{
    put(out, words)?;
    put_ticket(out, program, ticket)
}

// What a step does, with the object as it stands before, and the requests of its chunk.
fn put_core_effect(
    out: &mut Vec<u8>,
    program: &Program,
    object: &mut Option<Object>,
    effect: CoreEffect,
    requests: &[Request],
) -> Result<(), AllocError>
    ensures ok { OnOk result (out.new.items ≡ out.old.items ++ core_effect_text program.now object.old effect requests.now) }
{
    match effect {
        CoreEffect::Reserves(ticket) => put_reserves(out, program, ticket),
        CoreEffect::TakesChunk(object) => {
            put_object(out, program, b"takes an empty chunk of ", object)
        }
        CoreEffect::Sends => {
            put(out, b"sends ")?;
            put_requests(out, program, Form::Text, requests)
        }
        CoreEffect::WaitsFor(object) => put_object(out, program, b"waits for ", object),
        CoreEffect::Gets(object) => put_object(out, program, b"gets ", object),
        CoreEffect::Returns(object) => put_object(out, program, b"returns ", object),
        CoreEffect::EndsAt(ticket, object) => {
            put_block(out, program, b"ends ", ticket)?;
            put_object(out, program, b" at ", object)
        }
        CoreEffect::Serves(ticket) => put_block(out, program, b"serves ", ticket),
        CoreEffect::Runs(ticket) => {
            put(out, b"runs ")?;
            put_all_marked(out, program, Form::Text, object, requests)?;
            put_block(out, program, b" of ", ticket)
        }
        CoreEffect::GivesChunk(client) => {
            put_client(out, program, b"gives an empty chunk to ", client)
        }
        CoreEffect::SeesWaiting(client) => {
            put_client(out, program, b"sees that ", client)?;
            put(out, b" waits")
        }
        CoreEffect::GivesItself(client) => put_client(out, program, b"gives itself to ", client),
        CoreEffect::ComesBack(client) => put_client(out, program, b"comes back from ", client),
        CoreEffect::Leaves(ticket) => put_block(out, program, b"leaves ", ticket),
    }
}

// What a client does at a handler, as fields.
fn put_does_at(
    out: &mut Vec<u8>,
    program: &Program,
    verb: &[u8],
    object: u8,
) -> Result<(), AllocError>
    ensures ok { OnOk result (out.new.items ≡ out.old.items ++ (does_json verb.now ++ at_field program.now object)) }
{
    put_does(out, verb)?;
    put_at(out, program, object)
}

// What a handler does with a client, as fields.
fn put_does_of(
    out: &mut Vec<u8>,
    program: &Program,
    verb: &[u8],
    client: u8,
) -> Result<(), AllocError>
    ensures ok { OnOk result (out.new.items ≡ out.old.items ++ (does_json verb.now ++ of_field program.now client)) }
{
    put_does(out, verb)?;
    put_of(out, program, client)
}

/// Puts requests that their object has not run yet, as a field.
pub(crate) fn put_requests_json(
    out: &mut Vec<u8>,
    program: &Program,
    requests: &[Request],
) -> Result<(), AllocError>
    ensures ok { OnOk result (out.new.items ≡ out.old.items ++ requests_field (requests_in Json program.now requests.now)) }
{
    put(out, b",\"requests\":[")?;
    put_requests(out, program, Form::Json, requests)?;
    put(out, b"]")
}

// Requests that a handler runs, with their marks, as a field.
fn put_marked_json(
    out: &mut Vec<u8>,
    program: &Program,
    object: &mut Option<Object>,
    requests: &[Request],
) -> Result<(), AllocError>
    ensures ok { OnOk result (out.new.items ≡ out.old.items ++ requests_field (marked_requests Json program.now object.old requests.now)) }
{
    put(out, b",\"requests\":[")?;
    put_all_marked(out, program, Form::Json, object, requests)?;
    put(out, b"]")
}

// What a step does, as fields.
fn put_core_effect_json(
    out: &mut Vec<u8>,
    program: &Program,
    object: &mut Option<Object>,
    effect: CoreEffect,
    requests: &[Request],
) -> Result<(), AllocError>
    ensures ok { OnOk result (out.new.items ≡ out.old.items ++ core_effect_json program.now object.old effect requests.now) }
{
    match effect {
        CoreEffect::Reserves(ticket) => put_reserves_json(out, program, ticket),
        CoreEffect::TakesChunk(object) => put_does_at(out, program, b"takes", object),
        CoreEffect::Sends => {
            put_does(out, b"sends")?;
            put_requests_json(out, program, requests)
        }
        CoreEffect::WaitsFor(object) => put_does_at(out, program, b"waits", object),
        CoreEffect::Gets(object) => put_does_at(out, program, b"gets", object),
        CoreEffect::Returns(object) => put_does_at(out, program, b"returns", object),
        CoreEffect::EndsAt(ticket, object) => {
            put_does_ticket(out, program, b"ends", ticket)?;
            put_at(out, program, object)
        }
        CoreEffect::Serves(ticket) => put_does_ticket(out, program, b"serves", ticket),
        CoreEffect::Runs(ticket) => {
            put_does_ticket(out, program, b"runs", ticket)?;
            put_marked_json(out, program, object, requests)
        }
        CoreEffect::GivesChunk(client) => put_does_of(out, program, b"gives_chunk", client),
        CoreEffect::SeesWaiting(client) => put_does_of(out, program, b"sees", client),
        CoreEffect::GivesItself(client) => put_does_of(out, program, b"gives_itself", client),
        CoreEffect::ComesBack(client) => put_does_of(out, program, b"comes_back", client),
        CoreEffect::Leaves(ticket) => put_does_ticket(out, program, b"leaves", ticket),
    }
}

// What a step does, in a form.
fn put_core_effect_in(
    out: &mut Vec<u8>,
    program: &Program,
    form: Form,
    object: &mut Option<Object>,
    effect: CoreEffect,
    requests: &[Request],
) -> Result<(), AllocError>
    ensures ok { OnOk result (out.new.items ≡ out.old.items ++ core_effect_in form program.now object.old effect requests.now) }
{
    match form {
        Form::Text => put_core_effect(out, program, object, effect, requests),
        Form::Json => put_core_effect_json(out, program, object, effect, requests),
    }
}

// The line of an actor that has stepped.
fn put_stepped(
    out: &mut Vec<u8>,
    program: &Program,
    turn: Turn,
    object: &mut Option<Object>,
    effect: Option<CoreEffect>,
    requests: &[Request],
) -> Result<(), AllocError>
    ensures ok { OnOk result (out.new.items
        ≡ out.old.items
        ++ step_line turn.form program.now turn.number turn.actor
        (core_told_or_none turn.form program.now object.old effect requests.now)) }
{
    put_head(out, program, turn)?;
    if let Some(effect) = effect {
        put_core_effect_in(out, program, turn.form, object, effect, requests)?;
    }
    put(out, end_of_line(turn.form))
}

/// Puts the line of an actor that was asked to step: whether it stepped, and what it did then, by its object before
/// that.
pub(crate) fn put_core_line(
    out: &mut Vec<u8>,
    program: &Program,
    turn: Turn,
    stepped: bool,
    object: &mut Option<Object>,
    effect: Option<CoreEffect>,
    requests: &[Request],
) -> Result<(), AllocError>
    ensures ok { OnOk result (out.new.items
        ≡ out.old.items
        ++ core_line turn.form program.now turn.is_pick turn.number turn.actor stepped object.old effect requests.now) }
{
    if stepped {
        put_stepped(out, program, turn, object, effect, requests)
    } else {
        put_idle(out, program, turn)
    }
}
