// What may stand at a place of a script, in words.

use crate::causes::follow::{Follow, Group};
use crate::causes::source::Source;
use crate::causes::stage::token_back;
use qs_diagnosis::put_all;
use qs_script::tokens::Token;
use std::alloc::{AllocError, Global};

// What a name is called that may stand after a token; nothing, where a statement begins with it.
fn name_words(before: Option<&Token>, follow: &Follow) -> &'static [u8] {
    match before {
        _ if follow.has(Group::Statement) => b"",
        _ if follow.has(Group::Number) => b"a variable",
        Some(Token::Dot) => b"an operation's name",
        Some(Token::Assign) => b"a template's name",
        Some(Token::Separate | Token::Name(_) | Token::OpenParen | Token::Comma) => {
            b"an object's name"
        }
        _ => b"a name",
    }
}

// What the tokens of another group are called.
fn words_of(group: Group) -> &'static [u8] {
    match group {
        Group::Item => b"`object`, `client`, `template` or the text's end",
        Group::Kind => b"`account`, `buffer` or `grid`",
        Group::Separate => b"`separate`",
        Group::Else => b"`else`",
        Group::Number => b"a number",
        Group::Name => b"a name",
        Group::Statement => b"a statement",
        Group::Relation => b"`==`, `!=`, `<`, `<=`, `>` or `>=`",
        Group::Operator => b"`+`, `-`, `*`",
        Group::Dot => b"`.`",
        Group::Assign => b"`=`",
        Group::Comma => b"`,`",
        Group::CloseParen => b"`)`",
        Group::OpenParen => b"`(`",
        Group::OpenBrace => b"`{`",
        Group::Semicolon => b"`;`",
        Group::CloseBrace => b"`}`",
    }
}

// Joins phrases by commas, and the last by `or`.
fn listed(alloc: Global, phrases: &[&'static [u8]]) -> Result<Vec<u8>, AllocError> {
    let mut out = Vec::new(alloc);
    for (place, phrase) in phrases.iter().enumerate() {
        let sign: &'static [u8] = if place == 0 {
            b""
        } else if place.saturating_add(1) == phrases.len() {
            b" or "
        } else {
            b", "
        };
        put_all(&mut out, &[sign, *phrase])?;
    }
    Ok(out)
}

/// What may stand at a place, in words.
pub(crate) fn expected(
    alloc: Global,
    source: Source<'_>,
    place: usize,
    follow: &Follow,
) -> Result<Vec<u8>, AllocError> {
    let before = token_back(source, place, 1);
    let mut phrases: Vec<&'static [u8]> = Vec::new(alloc);
    for group in follow.groups() {
        let words = match group {
            Group::Name => name_words(before, follow),
            _ => words_of(*group),
        };
        if !words.is_empty() {
            phrases.push(words)?;
        }
    }
    if follow.has(Group::Number) && matches!(before, Some(Token::Assign)) {
        phrases.push(b"a query")?;
    }
    listed(alloc, phrases.as_slice())
}
