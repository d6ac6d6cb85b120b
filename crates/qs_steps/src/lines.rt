//! What the lines of both machines have in common.

ghost use Rattle.std.specs.Prelude.{◌≡◌, ◌++◌, OnOk, codes, decimal, flat_map};
ghost use Rattle.qs_program.specs.audit.Program.{client_at, object_at, text_of};
ghost use Rattle.qs_json.specs.audit.Pieces.{first_field};
ghost use Rattle.qs_steps.specs.Forms.{between as between_two, name_in, names_in};
ghost use Rattle.qs_steps.specs.Telling.{idle_line};
ghost use Rattle.qs_steps.specs.Told.{actor_field, actor_text, idle_told, line_end, line_head, reserves_json, reserves_text, ticket_text};

use crate::forms::{between, put_client_name, put_does_ticket, put_name, put_object_name};
use crate::telling::Turn;
use crate::wanted::Form;
use itoa::Buffer;
use qs_objects::Ticket;
use qs_played::Actor;
use qs_program::Program;
use qs_text::{client_name, object_name, put, put_all};
use std::alloc::AllocError;

// The name of a client, or of a handler's object.
fn actor_name(program: &Program, actor: Actor) -> &[u8]
    ensures name { result.now ≡ actor_text program.now actor }
{
    match actor {
        Actor::Client(client) => client_name(program, client),
        Actor::Handler(handler) => object_name(program, usize::from(handler)),
    }
}

// Who steps, as a field.
fn put_actor_field(out: &mut Vec<u8>, program: &Program, actor: Actor) -> Result<(), AllocError>
    ensures ok { OnOk result (out.new.items ≡ out.old.items ++ actor_field program.now actor) }
{
    match actor {
        Actor::Client(client) => put_client_name(out, program, b",\"client\":", client),
        Actor::Handler(handler) => put_object_name(out, program, b",\"object\":", handler),
    }
}

// The number of a line of text, and who steps.
fn put_text_head(
    out: &mut Vec<u8>,
    program: &Program,
    number: u64,
    actor: Actor,
) -> Result<(), AllocError>
    ensures ok { OnOk result (out.new.items
        ≡ out.old.items ++ (decimal number ++ codes " " ++ actor_text program.now actor ++ codes " ")) }
{
    let mut buffer = Buffer::new();
    let name = actor_name(program, actor);
    put_all(out, &[buffer.format(number).as_bytes(), b" ", name, b" "])
}

// The same as the first fields of an object.
fn put_json_head(
    out: &mut Vec<u8>,
    program: &Program,
    number: u64,
    actor: Actor,
) -> Result<(), AllocError>
    ensures ok { OnOk result (out.new.items
        ≡ out.old.items ++ (first_field (codes "step") (decimal number) ++ actor_field program.now actor)) }
{
    let mut buffer = Buffer::new();
    put_all(out, &[b"{\"step\":", buffer.format(number).as_bytes()])?;
    put_actor_field(out, program, actor)
}

/// Puts the number of a line and who steps.
pub(crate) fn put_head(out: &mut Vec<u8>, program: &Program, turn: Turn) -> Result<(), AllocError>
    ensures ok { OnOk result (out.new.items
        ≡ out.old.items ++ line_head turn.form program.now turn.number turn.actor) }
{
    match turn.form {
        Form::Text => put_text_head(out, program, turn.number, turn.actor),
        Form::Json => put_json_head(out, program, turn.number, turn.actor),
    }
}

/// What ends a line.
pub(crate) fn end_of_line(form: Form) -> &'static [u8]
    ensures word { result.now ≡ line_end form }
{
    match form {
        Form::Text => b"\n",
        Form::Json => b"}\n",
    }
}

// What is told of a pick that does not step.
fn idle_words(form: Form) -> &'static [u8]
    ensures words { result.now ≡ idle_told form }
{
    match form {
        Form::Text => b"does nothing",
        Form::Json => b",\"does\":\"nothing\"",
    }
}

/// Puts the line of an actor that did not step: a pick has one, and an actor of a round has none.
pub(crate) fn put_idle(out: &mut Vec<u8>, program: &Program, turn: Turn) -> Result<(), AllocError>
    ensures ok { OnOk result (out.new.items
        ≡ out.old.items ++ idle_line turn.form program.now turn.is_pick turn.number turn.actor) }
{
    if !turn.is_pick {
        return Ok(());
    }
    put_head(out, program, turn)?;
    put(out, idle_words(turn.form))?;
    put(out, end_of_line(turn.form))
}

/// Puts a ticket.
pub(crate) fn put_ticket(
    out: &mut Vec<u8>,
    program: &Program,
    ticket: Ticket,
) -> Result<(), AllocError>
    ensures ok { OnOk result (out.new.items ≡ out.old.items ++ ticket_text program.now ticket) }
{
    let mut buffer = Buffer::new();
    let name = client_name(program, ticket.client);
    put_all(
        out,
        &[
            b"ticket ",
            name,
            b" ",
            buffer.format(ticket.index).as_bytes(),
        ],
    )
}

// Further names, each after what stands between two.
fn put_other_names(
    out: &mut Vec<u8>,
    program: &Program,
    form: Form,
    objects: &[u8],
) -> Result<(), AllocError>
    ensures ok { OnOk result (out.new.items ≡ out.old.items ++ flat_map (λ h. between_two form ++ name_in form (object_at program.now h).name) objects.now) }
{
    for object in objects {
        put(out, between(form))?;
        put_name(out, form, object_name(program, usize::from(*object)))?;
    }
    Ok(())
}

// The names of objects.
fn put_names(
    out: &mut Vec<u8>,
    program: &Program,
    form: Form,
    objects: &[u8],
) -> Result<(), AllocError>
    ensures ok { OnOk result (out.new.items ≡ out.old.items ++ names_in form program.now objects.now) }
{
    match objects {
        [] => Ok(()),
        [first, others @ ..] => {
            put_name(out, form, object_name(program, usize::from(*first)))?;
            put_other_names(out, program, form, others)
        }
    }
}

// The objects of a block's list; of a block that is not there none.
fn reserved_by(program: &Program, ticket: Ticket) -> &[u8]
    ensures value { result.now ≡ (text_of program.now ticket).reserved }
{
    if usize::from(ticket.client) < program.clients()
        && usize::from(ticket.index) < program.blocks_of(ticket.client)
    {
        program.block(ticket.client, ticket.index).reserved()
    } else {
        &[]
    }
}

/// Puts that a client reserves the objects of a block's list.
pub(crate) fn put_reserves(
    out: &mut Vec<u8>,
    program: &Program,
    ticket: Ticket,
) -> Result<(), AllocError>
    ensures ok { OnOk result (out.new.items ≡ out.old.items ++ reserves_text program.now ticket) }
{
    put(out, b"reserves ")?;
    put_names(out, program, Form::Text, reserved_by(program, ticket))?;
    put(out, b" (")?;
    put_ticket(out, program, ticket)?;
    put(out, b")")
}

/// Puts the same as fields.
pub(crate) fn put_reserves_json(
    out: &mut Vec<u8>,
    program: &Program,
    ticket: Ticket,
) -> Result<(), AllocError>
    ensures ok { OnOk result (out.new.items ≡ out.old.items ++ reserves_json program.now ticket) }
{
    put_does_ticket(out, program, b"reserves", ticket)?;
    put(out, b",\"objects\":[")?;
    put_names(out, program, Form::Json, reserved_by(program, ticket))?;
    put(out, b"]")
}

/// Puts words and a client.
pub(crate) fn put_client(
    out: &mut Vec<u8>,
    program: &Program,
    words: &[u8],
    client: u8,
) -> Result<(), AllocError>
    ensures ok { OnOk result (out.new.items ≡ out.old.items ++ (words.now ++ (client_at program.now client).name)) }
{
    put(out, words)?;
    put(out, client_name(program, client))
}

/// Puts words and a handler's object.
pub(crate) fn put_object(
    out: &mut Vec<u8>,
    program: &Program,
    words: &[u8],
    object: u8,
) -> Result<(), AllocError>
    ensures ok { OnOk result (out.new.items ≡ out.old.items ++ (words.now ++ (object_at program.now object).name)) }
{
    put(out, words)?;
    put(out, object_name(program, usize::from(object)))
}
