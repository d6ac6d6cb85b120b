//! The text of a list.

ghost use Rattle.std.specs.Prelude.{◌≡◌, ◌<◌, ◌≤◌, ◌==◌, ◌+◌, IfOk, IfSome, IsTrue, length, map, min, nat_le, option_map, position};
ghost use Rattle.std.specs.List.{list_all, slice_split};
ghost use Rattle.qs_script.specs.audit.tokens.Limits.{longest_name};
ghost use Rattle.qs_script.specs.audit.tokens.Tokens.{is_digit, is_name_byte, same, value_of};
ghost use Rattle.qs_line.specs.audit.Limits.{most_actors, most_repeats};
ghost use Rattle.qs_line.specs.audit.Parts.{actor_in, clients_in as clients_due, count_in, has_handler as some_handler, is_handler, is_name, is_reserved as is_reserved_word, length_of, list_in as list_due, name_in, named_in, once, part_in, parts_of as parts_due, times};
ghost use Rattle.qs_line.specs.Parts.{orders_in as orders_due};

use crate::limits::{LONGEST_NAME, MOST_ACTORS, MOST_REPEATS};
use crate::parts::{Part, Who};
use qs_played::Actor;
use qs_script::tokens::Name;
use std::alloc::{AllocError, Global};

// An actor is `c` or `h` and one digit.
fn actor_at(text: &[u8]) -> Option<Actor>
    ensures actor { result ≡ actor_in text.now }
{
    match text {
        [b'c', digit @ b'0'..=b'9'] => Some(Actor::Client(*digit - b'0')),
        [b'h', digit @ b'0'..=b'9'] => Some(Actor::Handler(*digit - b'0')),
        _ => None,
    }
}

fn belongs_to_name(byte: u8) -> bool
    ensures exact { result ≡ is_name_byte byte }
{
    byte.is_ascii_lowercase() || byte.is_ascii_digit() || byte == b'_'
}

fn all_belong_to_name(text: &[u8]) -> bool
    ensures exact { result ≡ list_all is_name_byte text.now }
{
    text.iter().all(|byte| belongs_to_name(*byte))
}

fn is(text: &[u8], word: &[u8]) -> bool
    ensures exact { result ≡ same text.now word.now }
{
    text == word
}

// The words that are no names.
fn is_reserved(text: &[u8]) -> bool
    ensures exact { result ≡ is_reserved_word text.now }
{
    is(text, b"object")
        || is(text, b"client")
        || is(text, b"separate")
        || is(text, b"if")
        || is(text, b"else")
        || is(text, b"repeat")
        || is(text, b"leave")
        || is(text, b"account")
        || is(text, b"buffer")
        || is(text, b"grid")
        || is(text, b"template")
}

// Whether a text is a name of the language.
fn is_name_text(text: &[u8]) -> bool
    ensures exact { result ≡ is_name text.now }
    ensures short { IsTrue result → length text.now ≤ longest_name }
{
    match text {
        [first, rest @ ..] => {
            first.is_ascii_lowercase()
                && all_belong_to_name(rest)
                && text.len() <= LONGEST_NAME
                && !is_reserved(text)
        }
        [] => false,
    }
}

fn name_of(text: &[u8]) -> Option<Who>
    ensures name { result ≡ name_in text.now }
{
    if is_name_text(text) {
        return Some(Who::Name(Name::new(text)));
    }
    None
}

fn are_digits(text: &[u8]) -> bool
    ensures exact { result ≡ list_all is_digit text.now }
{
    text.iter().all(|byte| byte.is_ascii_digit())
}

// The number that digits write, or one more than the limit where it is greater.
fn capped_value(text: &[u8]) -> u32
    ensures capped { result ≡ min (value_of text.now) (most_repeats + 1) }
{
    let mut value = 0u32;
    for byte in text {
        value = (value * 10 + u32::from(byte.saturating_sub(b'0'))).min(MOST_REPEATS + 1);
    }
    value
}

fn count_of(text: &[u8]) -> Option<u32>
    ensures count { result ≡ count_in text.now }
{
    if !are_digits(text) {
        return None;
    }
    let value = capped_value(text);
    if value >= 1 && value <= MOST_REPEATS {
        return Some(value);
    }
    None
}

fn name_times(count: u32, text: &[u8]) -> Option<Part>
    ensures part { result ≡ option_map (times count) (name_in text.now) }
{
    let who = name_of(text)?;
    Some(Part { who, count })
}

// The place of the first `*`.
fn star_of(text: &[u8]) -> Option<usize>
    ensures star { result ≡ position (λ byte. byte == 42) text.now }
    ensures within { IfSome result (λ place. place < length text.now) }
{
    text.iter().position(|byte| *byte == b'*')
}

// A name, and after a `*` how often.
fn named_part(text: &[u8]) -> Option<Part>
    ensures part { result ≡ named_in text.now }
{
    match star_of(text) {
        None => name_times(1, text),
        Some(place) => {
            let count = count_of(&text[place + 1..])?;
            name_times(count, &text[..place])
        }
    }
}

fn number_part(text: &[u8]) -> Option<Part>
    ensures part { result ≡ option_map once (actor_in text.now) }
{
    let who = Who::Number(actor_at(text)?);
    Some(Part { who, count: 1 })
}

/// The part of a text: after an `@` a name and, after a `*`, how often; without it an actor by its number and nothing
/// else; None exactly where the text is no part.
pub fn part_of(text: &[u8]) -> Option<Part>
    ensures part { result ≡ part_in text.now }
{
    match text {
        [b'@', name @ ..] => named_part(name),
        _ => number_part(text),
    }
}

// The texts between the signs of one kind, which is one byte.
fn texts_of<'a>(alloc: Global, text: &'a str, sign: char) -> Result<Vec<&'a str>, AllocError>
    requires byte { sign < 128 }
    ensures parts { IfOk result (λ parts. map (λ part. part.now) parts.items ≡ slice_split (λ byte. byte == sign) text.now) }
{
    text.split(sign).collect(alloc)
}

// The parts of a text, however many actors they stand for.
fn parts_of(alloc: Global, text: &str) -> Result<Option<Vec<Part>>, AllocError>
    ensures parts { IfOk result (λ parts. option_map (λ list. list.items) parts ≡ parts_due (slice_split (λ byte. byte == 44) text.now)) }
{
    let texts = texts_of(alloc, text, ',')?;
    let mut parts = Vec::new(alloc);
    for part in &texts {
        match part_of(part.as_bytes()) {
            Some(part) => parts.push(part)?,
            None => return Ok(None),
        }
    }
    Ok(Some(parts))
}

// Whether parts stand for no more actors than the limit.
fn is_short(parts: &[Part]) -> bool
    ensures exact { result ≡ nat_le (length_of parts.now) most_actors }
{
    let mut left = MOST_ACTORS;
    for part in parts {
        if part.count > left {
            return false;
        }
        left -= part.count;
    }
    true
}

/// The parts of a text in which they are joined by commas; None exactly where it has another form, or its parts stand
/// for more actors than the limit.
pub fn list_in(alloc: Global, text: &str) -> Result<Option<Vec<Part>>, AllocError>
    ensures list { IfOk result (λ parts. option_map (λ list. list.items) parts ≡ list_due text.now) }
{
    let Some(parts) = parts_of(alloc, text)? else {
        return Ok(None);
    };
    if is_short(parts.as_slice()) {
        return Ok(Some(parts));
    }
    Ok(None)
}

fn is_handler_part(who: &Who) -> bool
    ensures exact { result ≡ is_handler who.now }
{
    matches!(who, Who::Number(Actor::Handler(_)))
}

fn has_handler(parts: &[Part]) -> bool
    ensures exact { result ≡ some_handler parts.now }
{
    parts.iter().any(|part| is_handler_part(&part.who))
}

/// The parts of a list of clients; None exactly where the text is no list, or one of its parts is a handler by its
/// number.
pub fn clients_in(alloc: Global, text: &str) -> Result<Option<Vec<Part>>, AllocError>
    ensures list { IfOk result (λ parts. option_map (λ list. list.items) parts ≡ clients_due text.now) }
{
    let Some(parts) = list_in(alloc, text)? else {
        return Ok(None);
    };
    if has_handler(parts.as_slice()) {
        return Ok(None);
    }
    Ok(Some(parts))
}

/// The lists of clients of a text in which they are joined by colons; None exactly where one of them is no such list.
pub fn orders_in(alloc: Global, text: &str) -> Result<Option<Vec<Vec<Part>>>, AllocError>
    ensures orders { IfOk result (λ orders. option_map (λ list. map (λ order. order.items) list.items) orders ≡ orders_due text.now) }
{
    let lists = texts_of(alloc, text, ':')?;
    let mut orders = Vec::new(alloc);
    for list in &lists {
        match clients_in(alloc, list)? {
            Some(order) => orders.push(order)?,
            None => return Ok(None),
        }
    }
    Ok(Some(orders))
}
