// What is said in words.

ghost use Rattle.std.specs.Prelude.{◌≡◌, ◌<◌, ◌≤◌, OnOk, length, pos, slice_index_or};
ghost use Rattle.qs_objects.specs.audit.Objects.{kind_of, values_of};
ghost use Rattle.qs_objects.specs.declared.object.Kind.TheVariants as kinds;
ghost use Rattle.qs_text.specs.audit.Texts.{spaced_value, texts_up_to};
ghost use Rattle.qs_text.specs.Texts.{Puts};
ghost use Rattle.qs_svg.specs.audit.Words.{args_words, before_variable, gap_words, block_words, client_words, content_words, declared_words, entry_words, fate_words, kind_words, line_words, refused_words, state_words, ticket_words, told_in, stretch_words, value_room, value_size, values_end, values_words, variable_words, with_integer};

use crate::pieces::put_counted_word;
use itoa::Buffer;
use qs_objects::{Entry, Kind, Object, Ticket};
use qs_program::{Locals, Names, Program};
use qs_text::fates::Fate;
use qs_text::{
    client_name, ended_word, object_name, put_args, put_count, put_number, put_reply,
    put_whole_request, put_word, variable_name,
};
use std::alloc::AllocError;

// What became of a request, where it was not simply done.
fn words_of_fate(fate: Fate) -> &'static [u8]
    ensures words { result.now ≡ fate_words fate }
{
    match fate {
        Fate::Done => b"",
        Fate::Refused => b" refused",
        Fate::NoValue => b" none",
    }
}

// A request with its reply, and what became of it.
pub(crate) fn put_entry(
    out: &mut Vec<u8>,
    program: &Program,
    entry: &Entry,
    fate: Fate,
) -> Result<(), AllocError>
    ensures ok { OnOk result (Puts (entry_words program.now entry.now fate) out.old.items out.new.items) }
{
    put_whole_request(out, program, &entry.request)?;
    put_reply(out, entry.reply)?;
    put_word(out, words_of_fate(fate))
}

// What stands before so many arguments.
fn gap(count: usize) -> &'static [u8]
    ensures gap { result.now ≡ gap_words count }
{
    if count == 0 { b"" } else { b" " }
}

// The arguments, after a space where there are some.
fn put_spaced_args(out: &mut Vec<u8>, args: &[i64]) -> Result<(), AllocError>
    ensures ok { OnOk result (Puts (args_words args.now) out.old.items out.new.items) }
{
    put_word(out, gap(args.len()))?;
    put_args(out, args)
}

/// Puts a request as it stands in the row of its object.
pub(crate) fn put_line(out: &mut Vec<u8>, entry: &Entry, fate: Fate) -> Result<(), AllocError>
    ensures ok { OnOk result (Puts (line_words entry.now fate) out.old.items out.new.items) }
{
    put_word(out, entry.request.op.word())?;
    put_spaced_args(out, entry.request.args.as_slice())?;
    put_reply(out, entry.reply)?;
    put_word(out, words_of_fate(fate))
}

// The values of an object that are told take so many characters at most, each with one that parts it from the next.
const VALUE_ROOM: usize = 13;

// How many characters a value takes.
fn size_of(value: i64) -> usize
    ensures size { result ≡ value_size value }
{
    let mut buffer = Buffer::new();
    buffer.format(value).len() + 1
}

// How many values of an object are told.
fn values_told(object: &Object) -> usize
    ensures told { result ≡ told_in value_room (values_of object.now.content) }
    ensures few { result ≤ length (values_of object.now.content) }
{
    let mut room = VALUE_ROOM;
    for place in 0..object.len() {
        let size = size_of(object.value(place).unwrap_or(0));
        if room < size {
            return place;
        }
        room -= size;
    }
    object.len()
}

// One value of an object, with a space before it unless it is the first.
fn put_value(out: &mut Vec<u8>, object: &Object, place: usize) -> Result<(), AllocError>
    requires { place < length (values_of object.now.content) }
    ensures ok { OnOk result (Puts (spaced_value (values_of object.now.content) place) out.old.items out.new.items) }
{
    if place > 0 {
        put_word(out, b" ")?;
    }
    put_number(out, object.value(place).unwrap_or(0))
}

// So many values of an object, with a space between each two.
fn put_first_values(out: &mut Vec<u8>, object: &Object, told: usize) -> Result<(), AllocError>
    requires { told ≤ length (values_of object.now.content) }
    ensures ok { OnOk result (Puts (texts_up_to told (spaced_value (values_of object.now.content))) out.old.items out.new.items) }
{
    for place in 0..told {
        put_value(out, object, place)?;
    }
    Ok(())
}

// How a list of so many values ends, of which so many are told.
fn closing(told: usize, values: usize) -> &'static [u8]
    ensures closing { result.now ≡ values_end told values }
{
    if told < values { b" ..]" } else { b"]" }
}

// The values of an object, between brackets.
fn put_values(out: &mut Vec<u8>, object: &Object) -> Result<(), AllocError>
    ensures ok { OnOk result (Puts (values_words (values_of object.now.content)) out.old.items out.new.items) }
{
    let told = values_told(object);
    put_word(out, b"[")?;
    put_first_values(out, object, told)?;
    put_word(out, closing(told, object.len()))
}

// A word and a number.
fn put_size(out: &mut Vec<u8>, word: &[u8], size: i64) -> Result<(), AllocError>
    ensures ok { OnOk result (Puts (with_integer word.now size) out.old.items out.new.items) }
{
    put_word(out, word)?;
    put_number(out, size)
}

// What an object holds.
fn put_content(out: &mut Vec<u8>, object: &Object) -> Result<(), AllocError>
    ensures ok { OnOk result (Puts (content_words (kind_of object.now.content) (values_of object.now.content)) out.old.items out.new.items) }
{
    match object.kind() {
        Kind::Account { balance } => put_number(out, balance),
        Kind::Buffer { .. } | Kind::Grid { .. } => put_values(out, object),
    }
}

// Two numbers, each after a word.
fn put_grid(out: &mut Vec<u8>, rows: i64, columns: i64) -> Result<(), AllocError>
    ensures ok { OnOk result (Puts (kind_words (kinds.Grid rows columns)) out.old.items out.new.items) }
{
    put_size(out, b"grid ", rows)?;
    put_size(out, b" ", columns)
}

// A kind with its numbers.
fn put_kind(out: &mut Vec<u8>, kind: Kind) -> Result<(), AllocError>
    ensures ok { OnOk result (Puts (kind_words kind) out.old.items out.new.items) }
{
    match kind {
        Kind::Account { balance } => put_size(out, b"account ", balance),
        Kind::Buffer { capacity } => put_size(out, b"buffer ", capacity),
        Kind::Grid { rows, columns } => put_grid(out, rows, columns),
    }
}

/// Puts how an object is declared, and how many requests there are.
pub(crate) fn put_declared(out: &mut Vec<u8>, kind: Kind, requests: usize) -> Result<(), AllocError>
    ensures ok { OnOk result (Puts (declared_words kind requests) out.old.items out.new.items) }
{
    put_kind(out, kind)?;
    put_word(out, b", ")?;
    put_counted_word(out, requests, b" request")
}

// How many commands an object refused, where it refused some.
fn put_refused(out: &mut Vec<u8>, refused: i64) -> Result<(), AllocError>
    ensures ok { OnOk result (Puts (refused_words refused) out.old.items out.new.items) }
{
    if refused == 0 {
        Ok(())
    } else {
        put_size(out, b", refused ", refused)
    }
}

/// Puts what an object holds, and how many commands it refused.
pub(crate) fn put_state_words(out: &mut Vec<u8>, object: &Object) -> Result<(), AllocError>
    ensures ok { OnOk result (Puts (state_words object.now) out.old.items out.new.items) }
{
    put_content(out, object)?;
    put_refused(out, object.refused())
}

// What stands before a variable, by its number.
fn before(number: usize) -> &'static [u8]
    ensures before { result.now ≡ before_variable number }
{
    if number == 0 { b" ends with " } else { b", " }
}

// The value of a variable, by its number.
fn value_of(locals: &Locals, number: usize) -> i64
    ensures value { result ≡ slice_index_or locals.now number (pos 0) }
{
    locals.get(number).copied().unwrap_or(0)
}

// A variable with its value, by its number.
fn put_variable(
    out: &mut Vec<u8>,
    variables: &Names,
    locals: &Locals,
    number: usize,
) -> Result<(), AllocError>
    ensures ok { OnOk result (Puts (variable_words variables.now locals.now number) out.old.items out.new.items) }
{
    put_word(out, before(number))?;
    put_word(out, variable_name(variables, number))?;
    put_size(out, b" = ", value_of(locals, number))
}

// All variables of a client.
fn put_variables(out: &mut Vec<u8>, variables: &Names, locals: &Locals) -> Result<(), AllocError>
    ensures ok { OnOk result (Puts (texts_up_to (length variables.now) (variable_words variables.now locals.now)) out.old.items out.new.items) }
{
    for number in 0..variables.len() {
        put_variable(out, variables, locals, number)?;
    }
    Ok(())
}

/// Puts a client with its variables.
pub(crate) fn put_client_words(
    out: &mut Vec<u8>,
    program: &Program,
    client: u8,
    locals: &Locals,
) -> Result<(), AllocError>
    requires client { client < length program.now.clients }
    ensures ok { OnOk result (Puts (client_words program.now client locals.now) out.old.items out.new.items) }
{
    put_word(out, client_name(program, client))?;
    put_variables(out, program.variables(client), locals)
}

// A ticket.
pub(crate) fn put_ticket(
    out: &mut Vec<u8>,
    program: &Program,
    ticket: Ticket,
) -> Result<(), AllocError>
    ensures ok { OnOk result (Puts (ticket_words program.now ticket) out.old.items out.new.items) }
{
    put_word(out, client_name(program, ticket.client))?;
    put_count(out, b" ", u64::from(ticket.index))
}

// A ticket, and whether its block has ended.
pub(crate) fn put_block_words(
    out: &mut Vec<u8>,
    program: &Program,
    ticket: Ticket,
    ended: bool,
) -> Result<(), AllocError>
    ensures ok { OnOk result (Puts (block_words program.now ticket ended) out.old.items out.new.items) }
{
    put_ticket(out, program, ticket)?;
    put_word(out, b" ")?;
    put_word(out, ended_word(ended))
}

// How many requests an object ran for a ticket.
pub(crate) fn put_stretch_words(
    out: &mut Vec<u8>,
    program: &Program,
    ticket: Ticket,
    object: usize,
    requests: usize,
) -> Result<(), AllocError>
    ensures ok { OnOk result (Puts (stretch_words program.now ticket object requests) out.old.items out.new.items) }
{
    put_ticket(out, program, ticket)?;
    put_word(out, b" on ")?;
    put_word(out, object_name(program, object))?;
    put_count(out, b": requests ", requests as u64)
}
