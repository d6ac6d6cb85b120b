//! The line of a step under the plain rules.

ghost use Rattle.std.specs.Prelude.{◌≡◌, ◌++◌, OnOk, codes};
ghost use Rattle.qs_json.specs.audit.Pieces.{field};
ghost use Rattle.qs_steps.specs.Forms.{does_json, request_in};
ghost use Rattle.qs_steps.specs.Marks.{marked};
ghost use Rattle.qs_text.specs.audit.Words.{request_text};
ghost use Rattle.qs_steps.specs.PlainSteps.{effect_in, effect_json, effect_text};
ghost use Rattle.qs_steps.specs.Telling.{plain_line};
ghost use Rattle.qs_steps.specs.Told.{ticket_text};
ghost use Rattle.qs_steps.specs.declared.wanted.Form.TheVariants.{Text, Json};

use crate::forms::{put_does, put_does_ticket, put_request_in};
use crate::lines::{end_of_line, put_head, put_idle, put_reserves, put_reserves_json, put_ticket};
use crate::marks::put_marked;
use crate::telling::Turn;
use crate::wanted::Form;
use qs_objects::{Object, Request, Ticket};
use qs_plain::Effect;
use qs_program::Program;
use qs_text::{put, put_whole_request};
use std::alloc::AllocError;

// A verb and a request.
fn put_asked(
    out: &mut Vec<u8>,
    program: &Program,
    verb: &[u8],
    request: &Request,
) -> Result<(), AllocError>
    ensures ok { OnOk result (out.new.items ≡ out.old.items ++ (verb.now ++ request_text program.now request.now)) }
{
    put(out, verb)?;
    put_whole_request(out, program, request)
}

// A verb and a ticket.
fn put_verb(
    out: &mut Vec<u8>,
    program: &Program,
    verb: &[u8],
    ticket: Ticket,
) -> Result<(), AllocError>
    ensures ok { OnOk result (out.new.items ≡ out.old.items ++ (verb.now ++ ticket_text program.now ticket)) }
{
    put(out, verb)?;
    put_ticket(out, program, ticket)
}

// A verb, and a request that a handler runs, with its mark.
fn put_run(
    out: &mut Vec<u8>,
    program: &Program,
    object: &mut Option<Object>,
    verb: &[u8],
    request: &Request,
    reply: Option<i64>,
) -> Result<(), AllocError>
    ensures ok { OnOk result (out.new.items ≡ out.old.items ++ (verb.now ++ marked Text program.now object.old request.now reply)) }
{
    put(out, verb)?;
    put_marked(out, program, Form::Text, object, request, reply)
}

// What a step does, with the object as it stands before.
fn put_effect(
    out: &mut Vec<u8>,
    program: &Program,
    object: &mut Option<Object>,
    effect: &Effect,
) -> Result<(), AllocError>
    ensures ok { OnOk result (out.new.items ≡ out.old.items ++ effect_text program.now object.old effect.now) }
{
    match effect {
        Effect::Reserves(ticket) => put_reserves(out, program, *ticket),
        Effect::Logs(request) => put_asked(out, program, b"logs ", request),
        Effect::Asks(request) => put_asked(out, program, b"asks ", request),
        Effect::Ends(ticket) => put_verb(out, program, b"ends ", *ticket),
        Effect::Runs(ticket, request) => {
            put_run(out, program, object, b"runs ", request, None)?;
            put_verb(out, program, b" of ", *ticket)
        }
        Effect::Answers(ticket, request, reply) => {
            put_run(out, program, object, b"answers ", request, *reply)?;
            put_verb(out, program, b" of ", *ticket)
        }
        Effect::Leaves(ticket) => put_verb(out, program, b"leaves ", *ticket),
    }
}

// A verb and a request, as fields.
fn put_asked_json(
    out: &mut Vec<u8>,
    program: &Program,
    verb: &[u8],
    request: &Request,
) -> Result<(), AllocError>
    ensures ok { OnOk result (out.new.items ≡ out.old.items ++ (does_json verb.now ++ field (codes "request") (request_in Json program.now request.now))) }
{
    put_does(out, verb)?;
    put(out, b",\"request\":")?;
    put_request_in(out, program, Form::Json, request)
}

// A request that a handler runs, with its mark, as a field.
fn put_run_json(
    out: &mut Vec<u8>,
    program: &Program,
    object: &mut Option<Object>,
    request: &Request,
    reply: Option<i64>,
) -> Result<(), AllocError>
    ensures ok { OnOk result (out.new.items ≡ out.old.items ++ field (codes "request") (marked Json program.now object.old request.now reply)) }
{
    put(out, b",\"request\":")?;
    put_marked(out, program, Form::Json, object, request, reply)
}

// What a step does, as fields.
fn put_effect_json(
    out: &mut Vec<u8>,
    program: &Program,
    object: &mut Option<Object>,
    effect: &Effect,
) -> Result<(), AllocError>
    ensures ok { OnOk result (out.new.items ≡ out.old.items ++ effect_json program.now object.old effect.now) }
{
    match effect {
        Effect::Reserves(ticket) => put_reserves_json(out, program, *ticket),
        Effect::Logs(request) => put_asked_json(out, program, b"logs", request),
        Effect::Asks(request) => put_asked_json(out, program, b"asks", request),
        Effect::Ends(ticket) => put_does_ticket(out, program, b"ends", *ticket),
        Effect::Runs(ticket, request) => {
            put_does_ticket(out, program, b"runs", *ticket)?;
            put_run_json(out, program, object, request, None)
        }
        Effect::Answers(ticket, request, reply) => {
            put_does_ticket(out, program, b"answers", *ticket)?;
            put_run_json(out, program, object, request, *reply)
        }
        Effect::Leaves(ticket) => put_does_ticket(out, program, b"leaves", *ticket),
    }
}

// What a step does, in a form.
fn put_effect_in(
    out: &mut Vec<u8>,
    program: &Program,
    form: Form,
    object: &mut Option<Object>,
    effect: &Effect,
) -> Result<(), AllocError>
    ensures ok { OnOk result (out.new.items ≡ out.old.items ++ effect_in form program.now object.old effect.now) }
{
    match form {
        Form::Text => put_effect(out, program, object, effect),
        Form::Json => put_effect_json(out, program, object, effect),
    }
}

/// Puts the line of an actor that was asked to step, by what it did, if it stepped, and by its object before that.
pub(crate) fn put_line(
    out: &mut Vec<u8>,
    program: &Program,
    turn: Turn,
    object: &mut Option<Object>,
    effect: &Option<Effect>,
) -> Result<(), AllocError>
    ensures ok { OnOk result (out.new.items
        ≡ out.old.items
        ++ plain_line turn.form program.now turn.is_pick turn.number turn.actor object.old effect.now) }
{
    match effect {
        None => put_idle(out, program, turn),
        Some(effect) => {
            put_head(out, program, turn)?;
            put_effect_in(out, program, turn.form, object, effect)?;
            put(out, end_of_line(turn.form))
        }
    }
}
