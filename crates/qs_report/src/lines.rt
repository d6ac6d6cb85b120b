// Lines of a trace, put where there is room for the longest one: no byte asks for room of its own.

ghost use Rattle.std.specs.Prelude.{◌≡◌, ◌<◌, ◌≤◌, ◌+◌, ◌*◌, ◌++◌, ◌∷◌, [], None, Some, false, IsTrue, length, take, flat_map, codes, decimal, vec_capacity, vec_len};
ghost use Rattle.qs_objects.specs.audit.Operations.{word};
ghost use Rattle.qs_program.specs.audit.Program.{object_at};
ghost use Rattle.std.specs.Fmt.{signed_decimal};
ghost use Rattle.qs_report.specs.Lines.{HasSixDigits, line_text, longest_line};
ghost use Rattle.qs_report.specs.audit.Report.{event_line};

use qs_objects::{Event, Request};
use qs_program::Program;
use qs_text::short_name;
use std::mem;

const LONGEST_LINE: usize = 64;

const SHORT: i64 = 1_000_000;

// A text.
#[inline(always)]
fn put(out: &mut Vec<u8>, text: &[u8])
    requires room { vec_len out.old + length text.now ≤ vec_capacity out.old }
    ensures items { out.new.items ≡ out.old.items ++ text.now }
    ensures len { vec_len out.new ≡ vec_len out.old + length text.now }
    ensures capacity { vec_capacity out.new ≡ vec_capacity out.old }
{
    for byte in text {
        out.push_reserved(*byte);
    }
}

// A name, mostly one of a few bytes.
#[inline(always)]
fn put_name(out: &mut Vec<u8>, name: &[u8])
    requires room { vec_len out.old + length name.now ≤ vec_capacity out.old }
    ensures items { out.new.items ≡ out.old.items ++ name.now }
    ensures len { vec_len out.new ≡ vec_len out.old + length name.now }
    ensures capacity { vec_capacity out.new ≡ vec_capacity out.old }
{
    match name {
        [only] => out.push_reserved(*only),
        [first, second] => {
            out.push_reserved(*first);
            out.push_reserved(*second);
        }
        _ => put(out, name),
    }
}

#[inline(always)]
fn put_digit(out: &mut Vec<u8>, digit: u64)
    requires digit { digit < 10 }
    requires room { vec_len out.old < vec_capacity out.old }
    ensures items { out.new.items ≡ out.old.items ++ (48 + digit) ∷ [] }
    ensures len { vec_len out.new ≡ vec_len out.old + 1 }
    ensures capacity { vec_capacity out.new ≡ vec_capacity out.old }
{
    out.push_reserved(b'0' + digit as u8);
}

// A number of at most two digits.
#[inline(always)]
fn put_two(out: &mut Vec<u8>, number: u64)
    requires few { number < 100 }
    requires room { vec_len out.old + 2 ≤ vec_capacity out.old }
    ensures items { out.new.items ≡ out.old.items ++ decimal number }
    ensures len { vec_len out.new ≤ vec_len out.old + 2 }
    ensures capacity { vec_capacity out.new ≡ vec_capacity out.old }
{
    if number < 10 {
        put_digit(out, number);
    } else {
        put_digit(out, number / 10);
        put_digit(out, number % 10);
    }
}

// A number of at most four digits.
#[inline(always)]
fn put_four(out: &mut Vec<u8>, number: u64)
    requires few { number < 10000 }
    requires room { vec_len out.old + 4 ≤ vec_capacity out.old }
    ensures items { out.new.items ≡ out.old.items ++ decimal number }
    ensures len { vec_len out.new ≤ vec_len out.old + 4 }
    ensures capacity { vec_capacity out.new ≡ vec_capacity out.old }
{
    if number < 100 {
        put_two(out, number);
    } else {
        put_two(out, number / 100);
        put_digit(out, number / 10 % 10);
        put_digit(out, number % 10);
    }
}

// A number of at most six digits.
#[inline(always)]
fn put_six(out: &mut Vec<u8>, number: u64)
    requires few { number < 1000000 }
    requires room { vec_len out.old + 6 ≤ vec_capacity out.old }
    ensures items { out.new.items ≡ out.old.items ++ decimal number }
    ensures len { vec_len out.new ≤ vec_len out.old + 6 }
    ensures capacity { vec_capacity out.new ≡ vec_capacity out.old }
{
    if number < 100 {
        put_two(out, number);
    } else {
        put_four(out, number / 100);
        put_digit(out, number / 10 % 10);
        put_digit(out, number % 10);
    }
}

// A short number.
#[inline(always)]
fn put_number(out: &mut Vec<u8>, number: i64)
    requires short { HasSixDigits number }
    requires room { vec_len out.old + 6 ≤ vec_capacity out.old }
    ensures items { out.new.items ≡ out.old.items ++ signed_decimal number }
    ensures len { vec_len out.new ≤ vec_len out.old + 6 }
    ensures capacity { vec_capacity out.new ≡ vec_capacity out.old }
{
    if number < 10 {
        put_digit(out, number as u64);
    } else {
        put_six(out, number as u64);
    }
}

// A request's closing parenthesis, a query's reply, and the line's end.
#[inline(always)]
fn put_reply(out: &mut Vec<u8>, reply: i64)
    requires short { HasSixDigits reply }
    requires room { vec_len out.old + 11 ≤ vec_capacity out.old }
    ensures items { out.new.items ≡ out.old.items ++ codes ") = " ++ signed_decimal reply ++ codes "\n" }
    ensures len { vec_len out.new ≤ vec_len out.old + 11 }
    ensures capacity { vec_capacity out.new ≡ vec_capacity out.old }
{
    put(out, b") = ");
    put_number(out, reply);
    out.push_reserved(b'\n');
}

// A request up to its arguments.
#[inline(always)]
fn put_head(out: &mut Vec<u8>, program: &Program, request: &Request)
    requires room { vec_len out.old + 26 ≤ vec_capacity out.old }
    ensures items { out.new.items ≡ out.old.items ++ (object_at program.now request.now.object).name ++ codes "." ++ word request.now.op ++ codes "(" }
    ensures len { vec_len out.new ≤ vec_len out.old + 26 }
    ensures capacity { vec_capacity out.new ≡ vec_capacity out.old }
{
    put_name(out, short_name(program, usize::from(request.object)));
    put(out, request.op.opening());
}

#[inline(always)]
fn is_short(number: i64) -> bool
    ensures short { IsTrue result → HasSixDigits number }
{
    0 <= number && number < SHORT
}

// The line of a command with at most one argument, where that is short. Answers whether it is there; else nothing is.
#[inline(always)]
fn put_command(out: &mut Vec<u8>, program: &Program, request: &Request) -> bool
    requires room { vec_len out.old + 34 ≤ vec_capacity out.old }
    ensures items { IsTrue result → out.new.items ≡ out.old.items ++ line_text program.now request.now None }
    ensures none { result ≡ false → out.new.items ≡ out.old.items }
    ensures len { vec_len out.new ≤ vec_len out.old + 34 }
    ensures capacity { vec_capacity out.new ≡ vec_capacity out.old }
{
    match request.args.as_slice() {
        [] => {
            put_head(out, program, request);
            put(out, b")\n");
            true
        }
        [only] if is_short(*only) => {
            put_head(out, program, request);
            put_number(out, *only);
            put(out, b")\n");
            true
        }
        _ => false,
    }
}

// The line of a query with at most one argument, where that and the reply are short. Answers whether it is there; else
// nothing is.
#[inline(always)]
fn put_query(out: &mut Vec<u8>, program: &Program, request: &Request, reply: i64) -> bool
    requires room { vec_len out.old + 43 ≤ vec_capacity out.old }
    ensures items { IsTrue result → out.new.items ≡ out.old.items ++ line_text program.now request.now (Some reply) }
    ensures none { result ≡ false → out.new.items ≡ out.old.items }
    ensures len { vec_len out.new ≤ vec_len out.old + 43 }
    ensures capacity { vec_capacity out.new ≡ vec_capacity out.old }
{
    if !is_short(reply) {
        return false;
    }
    match request.args.as_slice() {
        [] => {
            put_head(out, program, request);
            put_reply(out, reply);
            true
        }
        [only] if is_short(*only) => {
            put_head(out, program, request);
            put_number(out, *only);
            put_reply(out, reply);
            true
        }
        _ => false,
    }
}

// A line with at most one argument, where its numbers are short. Answers whether it is there; else nothing is.
#[inline(always)]
fn put_line(out: &mut Vec<u8>, program: &Program, event: &Event) -> bool
    requires room { vec_len out.old + longest_line ≤ vec_capacity out.old }
    ensures items { IsTrue result → out.new.items ≡ out.old.items ++ event_line program.now event.now }
    ensures none { result ≡ false → out.new.items ≡ out.old.items }
    ensures len { vec_len out.new ≤ vec_len out.old + longest_line }
    ensures capacity { vec_capacity out.new ≡ vec_capacity out.old }
{
    match event.reply {
        None => put_command(out, program, &event.request),
        Some(reply) => put_query(out, program, &event.request, reply),
    }
}

// The first lines, up to one that is not written here. Answers how many.
#[inline(always)]
fn put_first(out: &mut Vec<u8>, program: &Program, trace: &[Event]) -> usize
    requires room { vec_len out.old + longest_line * length trace.now ≤ vec_capacity out.old }
    ensures few { result ≤ length trace.now }
    ensures items { out.new.items ≡ out.old.items ++ flat_map (event_line program.now) (take result trace.now) }
{
    for (place, event) in trace.iter().enumerate() {
        if !put_line(out, program, event) {
            return place;
        }
    }
    trace.len()
}

// How many of so many lines have room, however long they are.
fn lines_with_room(out: &Vec<u8>, lines: usize) -> usize
    ensures few { result ≤ lines }
    ensures room { vec_len out.now + longest_line * result ≤ vec_capacity out.now }
{
    let room = (out.capacity() - out.len()) / LONGEST_LINE;
    room.min(lines)
}

// Whether a line is likely to be written here.
fn is_quick(event: &Event) -> bool {
    match event.request.args.as_slice() {
        [] => true,
        [only] => is_short(*only),
        _ => false,
    }
}

// The first lines, as many as there is room for. The bytes are out of their place meanwhile, so that each is written
// without a look at it.
#[inline(never)]
fn put_quick(out: &mut Vec<u8>, program: &Program, trace: &[Event]) -> usize
    ensures few { result ≤ length trace.now }
    ensures items { out.new.items ≡ out.old.items ++ flat_map (event_line program.now) (take result trace.now) }
{
    let alloc = *out.allocator();
    let mut text = mem::replace(out, Vec::new(alloc));
    let lines = lines_with_room(&text, trace.len());
    let count = put_first(&mut text, program, &trace[..lines]);
    *out = text;
    count
}

/// Puts the first lines of a trace at the end, as long as there is room, and a line has at most one argument and short
/// numbers. Answers how many.
pub(crate) fn put_lines(out: &mut Vec<u8>, program: &Program, trace: &[Event]) -> usize
    ensures few { result ≤ length trace.now }
    ensures items { out.new.items ≡ out.old.items ++ flat_map (event_line program.now) (take result trace.now) }
{
    match trace.first() {
        Some(event) if is_quick(event) => put_quick(out, program, trace),
        _ => 0,
    }
}
