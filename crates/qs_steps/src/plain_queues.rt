//! What lies where under the plain rules.

ghost use Rattle.std.specs.Prelude.{◌≡◌, ◌++◌, [], OnOk, codes, flat_map, length};
ghost use Rattle.qs_json.specs.audit.Pieces.{field, first_field, quoted};
ghost use Rattle.qs_plain.specs.client.Queues.{QueueState};
ghost use Rattle.qs_plain_laws.specs.audit.Plain.{client_at, handler_at};
ghost use Rattle.qs_plain.specs.Rules.{plain_of};
ghost use Rattle.qs_steps.specs.Forms.{between as between_two, listed, numbered, request_in};
ghost use Rattle.qs_steps.specs.PlainQueues.{client_of, handler_in, handler_of, item_in, item_json, item_text, private_in, queues_in, spaced, wait_in, waits_reply};
ghost use Rattle.qs_steps.specs.Queues.{queues_by};
ghost use Rattle.qs_steps.specs.Telling.{awaited_in};
ghost use Rattle.qs_steps.specs.declared.wanted.Form.TheVariants.{Text, Json};

use crate::forms::{between, put_block_fields, put_comma, put_json, put_request_in, put_string};
use crate::lines::put_ticket;
use crate::queue_words::{
    done, end_of_client, nothing, put_client_head, put_queue_head, says_nothing,
};
use crate::wanted::Form;
use qs_objects::Request;
use qs_plain::client::PrivateQueue;
use qs_plain::{Awaited, Rules};
use qs_plain_laws::QueueItem;
use qs_program::Program;
use qs_text::put;
use std::alloc::AllocError;

// An item of a private queue.
fn put_item_text(out: &mut Vec<u8>, program: &Program, item: &QueueItem) -> Result<(), AllocError>
    ensures ok { OnOk result (out.new.items ≡ out.old.items ++ item_text program.now item.now) }
{
    match item {
        QueueItem::Command(request) => put_request_in(out, program, Form::Text, request),
        QueueItem::Query(request) => put_request_in(out, program, Form::Text, request),
        QueueItem::EndMark => put(out, b"end"),
    }
}

// A command or a query as an object.
fn put_asked(
    out: &mut Vec<u8>,
    program: &Program,
    kind: &[u8],
    request: &Request,
) -> Result<(), AllocError>
    ensures ok { OnOk result (out.new.items ≡ out.old.items ++ (first_field (codes "item") (quoted kind.now) ++ field (codes "request") (request_in Json program.now request.now) ++ codes "}")) }
{
    put_string(out, b"{\"item\":", kind)?;
    put(out, b",\"request\":")?;
    put_request_in(out, program, Form::Json, request)?;
    put(out, b"}")
}

// An item of a private queue as an object.
fn put_item_json(out: &mut Vec<u8>, program: &Program, item: &QueueItem) -> Result<(), AllocError>
    ensures ok { OnOk result (out.new.items ≡ out.old.items ++ item_json program.now item.now) }
{
    match item {
        QueueItem::Command(request) => put_asked(out, program, b"command", request),
        QueueItem::Query(request) => put_asked(out, program, b"query", request),
        QueueItem::EndMark => put(out, b"{\"item\":\"end\"}"),
    }
}

// An item of a private queue, in a form.
fn put_item(
    out: &mut Vec<u8>,
    program: &Program,
    form: Form,
    item: &QueueItem,
) -> Result<(), AllocError>
    ensures ok { OnOk result (out.new.items ≡ out.old.items ++ item_in form program.now item.now) }
{
    match form {
        Form::Text => put_item_text(out, program, item),
        Form::Json => put_item_json(out, program, item),
    }
}

// Items, each after what stands between two.
fn put_items(
    out: &mut Vec<u8>,
    program: &Program,
    form: Form,
    items: &[QueueItem],
) -> Result<(), AllocError>
    ensures ok { OnOk result (out.new.items ≡ out.old.items ++ flat_map (λ i. between_two form ++ item_in form program.now i) items.now) }
{
    for item in items {
        put(out, between(form))?;
        put_item(out, program, form, item)?;
    }
    Ok(())
}

// The items of a private queue, or a dash where there are none.
fn put_spaced(out: &mut Vec<u8>, program: &Program, queue: &PrivateQueue) -> Result<(), AllocError>
    ensures ok { OnOk result (out.new.items ≡ out.old.items ++ spaced (item_in Text program.now) queue.now.queue.items) }
{
    let (first, second) = queue.items();
    if first.is_empty() {
        put(out, b" -")
    } else {
        put_items(out, program, Form::Text, first)?;
        put_items(out, program, Form::Text, second)
    }
}

// Items in two lists, as the elements of an array; where the first list is empty, the second is too.
fn put_elements(
    out: &mut Vec<u8>,
    program: &Program,
    first: &[QueueItem],
    second: &[QueueItem],
) -> Result<(), AllocError>
    ensures ok { OnOk result ((first.now ≡ [] → second.now ≡ []) → out.new.items ≡ out.old.items ++ listed Json (item_in Json program.now) (first.now ++ second.now)) }
{
    match first {
        [] => Ok(()),
        [one, others @ ..] => {
            put_item(out, program, Form::Json, one)?;
            put_items(out, program, Form::Json, others)?;
            put_items(out, program, Form::Json, second)
        }
    }
}

// Whose a private queue is, and what lies in it, as a line.
fn put_private_text(
    out: &mut Vec<u8>,
    program: &Program,
    queue: &PrivateQueue,
) -> Result<(), AllocError>
    ensures ok { OnOk result (out.new.items ≡ out.old.items ++ private_in Text program.now queue.now.queue) }
{
    put_ticket(out, program, queue.ticket())?;
    put_spaced(out, program, queue)?;
    put(out, b"\n")
}

// The same as an object.
fn put_private_json(
    out: &mut Vec<u8>,
    program: &Program,
    queue: &PrivateQueue,
) -> Result<(), AllocError>
    ensures ok { OnOk result (out.new.items ≡ out.old.items ++ private_in Json program.now queue.now.queue) }
{
    let (first, second) = queue.items();
    put_block_fields(out, program, queue.ticket())?;
    put(out, b",\"items\":[")?;
    put_elements(out, program, first, second)?;
    put(out, b"]}")
}

// Whose a private queue is, and what lies in it, in a form.
fn put_private(
    out: &mut Vec<u8>,
    program: &Program,
    form: Form,
    queue: &PrivateQueue,
) -> Result<(), AllocError>
    ensures ok { OnOk result (out.new.items ≡ out.old.items ++ private_in form program.now queue.now.queue) }
{
    match form {
        Form::Text => put_private_text(out, program, queue),
        Form::Json => put_private_json(out, program, queue),
    }
}

// All these private queues.
fn put_privates(
    out: &mut Vec<u8>,
    program: &Program,
    form: Form,
    queues: &[PrivateQueue],
) -> Result<(), AllocError>
    ensures ok { OnOk result (out.new.items ≡ out.old.items ++ listed form (λ (q : QueueState). private_in form program.now q.queue) queues.now) }
{
    for place in 0..queues.len() {
        put_comma(out, form, place)?;
        put_private(out, program, form, &queues[place])?;
    }
    Ok(())
}

// A handler, how many private queues it has, and these.
fn put_handler(
    out: &mut Vec<u8>,
    program: &Program,
    form: Form,
    rules: &Rules,
    handler: u8,
) -> Result<(), AllocError>
    ensures ok { OnOk result (out.new.items ≡ out.old.items ++ handler_in form program.now handler (handler_at (plain_of rules.now).handlers handler)) }
{
    let queues = rules.queues(handler);
    put_queue_head(out, program, form, handler, queues.len())?;
    put_privates(out, program, form, queues)?;
    put_json(out, form, b"]")?;
    put_json(out, form, b"}")
}

// All handlers, in text order.
fn put_handlers(
    out: &mut Vec<u8>,
    program: &Program,
    form: Form,
    rules: &Rules,
) -> Result<(), AllocError>
    ensures ok { OnOk result (out.new.items ≡ out.old.items ++ numbered form (handler_of form program.now (plain_of rules.now)) (length program.now.objects)) }
{
    program.keeps_sound();
    for handler in 0..program.objects() as u8 {
        put_comma(out, form, usize::from(handler))?;
        put_handler(out, program, form, rules, handler)?;
    }
    Ok(())
}

// That a client waits for a reply.
fn reply(form: Form) -> &'static [u8]
    ensures words { result.now ≡ waits_reply form }
{
    match form {
        Form::Text => b"waits for a reply",
        Form::Json => b",\"done\":false,\"waits\":\"reply\"",
    }
}

// What is waited for.
fn words_of(form: Form, awaited: Awaited) -> &'static [u8]
    ensures words { result.now ≡ awaited_in form awaited }
{
    match awaited {
        Awaited::Nothing => nothing(form),
        Awaited::Reply => reply(form),
        Awaited::Done => done(form),
    }
}

// What a client waits for.
fn wait_of(program: &Program, form: Form, rules: &Rules, client: u8) -> &'static [u8]
    requires own { rules.now.program ≡ program.now }
    ensures words { result.now ≡ wait_in form program.now client (client_at (plain_of rules.now) client) (client_at (plain_of rules.now) client).stage }
{
    words_of(form, rules.awaited(client))
}

// A client, and what it waits for.
fn put_client_of(
    out: &mut Vec<u8>,
    program: &Program,
    form: Form,
    rules: &Rules,
    client: u8,
) -> Result<(), AllocError>
    requires own { rules.now.program ≡ program.now }
    ensures ok { OnOk result (out.new.items ≡ out.old.items ++ client_of form program.now (plain_of rules.now) client) }
{
    put_client_head(out, program, form, client)?;
    put(out, wait_of(program, form, rules, client))?;
    put(out, end_of_client(form))
}

// All clients, in text order.
fn put_clients(
    out: &mut Vec<u8>,
    program: &Program,
    form: Form,
    rules: &Rules,
) -> Result<(), AllocError>
    requires own { rules.now.program ≡ program.now }
    ensures ok { OnOk result (out.new.items ≡ out.old.items ++ numbered form (client_of form program.now (plain_of rules.now)) (length program.now.clients)) }
{
    program.keeps_sound();
    for client in 0..program.clients() as u8 {
        put_comma(out, form, usize::from(client))?;
        put_client_of(out, program, form, rules, client)?;
    }
    Ok(())
}

// All handlers and then all clients.
fn put_all_queues(
    out: &mut Vec<u8>,
    program: &Program,
    form: Form,
    rules: &Rules,
) -> Result<(), AllocError>
    requires own { rules.now.program ≡ program.now }
    ensures ok { OnOk result (out.new.items ≡ out.old.items ++ queues_by form program.now (handler_of form program.now (plain_of rules.now)) (client_of form program.now (plain_of rules.now))) }
{
    put_json(out, form, b"{\"queues\":[")?;
    put_handlers(out, program, form, rules)?;
    put_json(out, form, b"],\"clients\":[")?;
    put_clients(out, program, form, rules)?;
    put_json(out, form, b"]}\n")
}

/// Puts what lies where, in text unless the run is finished.
pub(crate) fn put_plain_queues(
    out: &mut Vec<u8>,
    program: &Program,
    form: Form,
    rules: &Rules,
) -> Result<(), AllocError>
    requires own { rules.now.program ≡ program.now }
    ensures ok { OnOk result (out.new.items ≡ out.old.items ++ queues_in form program.now (plain_of rules.now)) }
{
    if says_nothing(form, rules.is_finished()) {
        return Ok(());
    }
    put_all_queues(out, program, form, rules)
}
