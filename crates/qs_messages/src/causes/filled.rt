// Help with the words of the text that is at fault.

use crate::causes::source::Source;
use crate::causes::stage::token_back;
use qs_script::tokens::Token;
use std::alloc::{AllocError, Global};

fn is_value(token: Option<&Token>) -> bool {
    matches!(token, Some(Token::Name(_) | Token::Number(_)))
}

// The bytes from one token to another; none where they go over a line's end, or are many.
fn between<'a>(source: Source<'a>, first: usize, last: usize) -> &'a [u8] {
    let (start, end) = (source.span(first).start, source.end_of(last).start);
    let text = source.text();
    if first > last || start > end || end > text.len() {
        return b"";
    }
    let bytes = &text[start..end];
    if bytes.len() > 60 || bytes.contains(&b'\n') || bytes.contains(&b'#') {
        return b"";
    }
    bytes
}

// The value at a place, with its sign.
fn value_at<'a>(source: Source<'a>, place: usize) -> &'a [u8] {
    let next = place.saturating_add(1);
    if is_value(source.token(place)) {
        source.word(place)
    } else if matches!(source.token(place), Some(Token::Minus)) && is_value(source.token(next)) {
        between(source, place, next)
    } else {
        b""
    }
}

// The value right before a place, with its sign.
fn value_before<'a>(source: Source<'a>, place: usize) -> &'a [u8] {
    let last = place.saturating_sub(1);
    if !is_value(source.token(last)) {
        return b"";
    }
    let is_signed = matches!(token_back(source, place, 2), Some(Token::Minus))
        && !is_value(token_back(source, place, 3));
    let first = if is_signed {
        last.saturating_sub(1)
    } else {
        last
    };
    between(source, first, last)
}

// The place of the last `=` before a place, in its statement.
fn assign_before(source: Source<'_>, place: usize) -> Option<usize> {
    for back in 1..=place {
        match source.token(place - back) {
            Some(Token::Assign) => return Some(place - back),
            Some(Token::Semicolon | Token::OpenBrace | Token::CloseBrace) => return None,
            _ => {}
        }
    }
    None
}

// The request whose `.` stands at a place.
fn call_at<'a>(source: Source<'a>, dot: usize) -> &'a [u8] {
    for place in dot..source.len() {
        match source.token(place) {
            Some(Token::CloseParen) => return between(source, dot.saturating_sub(1), place),
            Some(Token::Semicolon | Token::OpenBrace | Token::CloseBrace) => return b"",
            _ => {}
        }
    }
    b""
}

// The list of the block that is open at a place.
fn list_before<'a>(source: Source<'a>, place: usize) -> &'a [u8] {
    let mut brace = place;
    for back in 1..=place {
        let at = place - back;
        match source.token(at) {
            Some(Token::OpenBrace) => brace = at,
            Some(Token::Separate) => {
                return between(source, at.saturating_add(1), brace.saturating_sub(1));
            }
            _ => {}
        }
    }
    b""
}

// The word of the text that stands for a word in capitals; none where the text has no such.
fn word_for<'a>(source: Source<'a>, place: usize, capitals: &[u8]) -> &'a [u8] {
    let next = place.saturating_add(1);
    match capitals {
        b"LEFT" => value_before(source, place),
        b"RIGHT" => value_at(source, next),
        b"LAST" => value_at(source, next.saturating_add(1)),
        b"VALUE" => value_at(source, place),
        b"SIGN" => source.word(place),
        b"CALL" => call_at(source, place),
        b"LIST" => list_before(source, place),
        b"OBJECT" if matches!(source.token(next), Some(Token::Dot)) => value_at(source, place),
        b"VARIABLE" => match assign_before(source, place) {
            Some(assign) => value_before(source, assign),
            None => b"",
        },
        b"FRONT" => match assign_before(source, place) {
            Some(assign) => between(source, assign.saturating_add(1), place.saturating_sub(1)),
            None => b"",
        },
        _ => b"",
    }
}

/// Help for a place, in which words in capitals stand between two `|`: each is replaced by what the text has there, and
/// stays where the text has nothing.
pub(crate) fn filled(
    alloc: Global,
    source: Source<'_>,
    place: usize,
    help: &'static [u8],
) -> Result<Vec<u8>, AllocError> {
    let mut out = Vec::new(alloc);
    let mut is_capitals = false;
    for piece in help.split(|byte| *byte == b'|') {
        let word = if is_capitals {
            word_for(source, place, piece)
        } else {
            b""
        };
        out.extend_from_slice(if word.is_empty() { piece } else { word })?;
        is_capitals = !is_capitals;
    }
    Ok(out)
}
