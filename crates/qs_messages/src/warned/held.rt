// Products and sums that go over the range of 64 bits and are held at its bound, by the tokens of a script.

use crate::causes::{Source, open_before, placed_tokens, token_back};
use qs_diagnosis::{Diagnosis, Span, put_all, put_warning};
use qs_script::tokens::Token;
use std::alloc::{AllocError, Global};

// The greatest of the range, but for its sign.
const GREATEST: u128 = 9223372036854775807;

// What is said of one that is held: the cause and help.
#[derive(Drop)]
struct Held {
    cause: Vec<u8>,
    help: &'static [u8],
}

// The number at a place, where one stands there.
fn number_at(source: Source<'_>, place: usize) -> Option<u64> {
    match source.token(place) {
        Some(Token::Number(number)) => Some(number.count()),
        _ => None,
    }
}

// The number at a place, or behind its sign.
fn signed_at(source: Source<'_>, place: usize) -> Option<u64> {
    match source.token(place) {
        Some(Token::Minus) => number_at(source, place.saturating_add(1)),
        _ => number_at(source, place),
    }
}

// The greatest product of the range at a `*` between two numbers, but for its sign.
fn greatest_at(source: Source<'_>, times: usize) -> u128 {
    let is_left_negative = matches!(token_back(source, times, 2), Some(Token::Minus));
    let is_right_negative = matches!(source.token(times.saturating_add(1)), Some(Token::Minus));
    if is_left_negative == is_right_negative {
        GREATEST
    } else {
        GREATEST + 1
    }
}

// Whether the product of the two numbers beside a `*` is out of the range.
fn is_past(source: Source<'_>, times: usize) -> bool {
    let left = number_at(source, times.saturating_sub(1));
    let right = signed_at(source, times.saturating_add(1));
    match (left, right) {
        (Some(left), Some(right)) => {
            u128::from(left).saturating_mul(u128::from(right)) > greatest_at(source, times)
        }
        _ => false,
    }
}

// By what an operator multiplies the variable that is set to the result, as `x = x * 3` does and `x = x + x`.
fn factor_of(source: Source<'_>, operator: usize) -> Option<u64> {
    let variable = source.word(operator.saturating_sub(1));
    if !matches!(token_back(source, operator, 2), Some(Token::Assign)) {
        return None;
    }
    if source.word(operator.saturating_sub(3)) != variable {
        return None;
    }
    let next = operator.saturating_add(1);
    match source.token(operator) {
        Some(Token::Times) => signed_at(source, next),
        Some(Token::Plus) if source.word(next) == variable => Some(2),
        _ => None,
    }
}

// Whether a factor, taken so many times, is out of the range.
fn grows_past(factor: u64, turns: u64) -> bool {
    let mut power: u128 = 1;
    for _ in 0..turns {
        power = power.saturating_mul(u128::from(factor));
        if power > GREATEST + 1 {
            return true;
        }
    }
    false
}

// Whether a body that begins with a `{` sets a variable at one place alone, and has no `leave`.
fn is_steady(source: Source<'_>, open: usize, variable: &[u8], set: usize) -> bool {
    let mut opened: usize = 0;
    for place in open..source.len() {
        match source.token(place) {
            Some(Token::OpenBrace) => opened = opened.saturating_add(1),
            Some(Token::CloseBrace) if opened <= 1 => return true,
            Some(Token::CloseBrace) => opened = opened.saturating_sub(1),
            Some(Token::Leave) => return false,
            Some(Token::Assign) if place != set => {
                if source.word(place.saturating_sub(1)) == variable {
                    return false;
                }
            }
            _ => {}
        }
    }
    false
}

// The turns of the `repeat` in whose body an operator multiplies its variable past the range, unless that is 0.
fn growing_turns(source: Source<'_>, operator: usize) -> Option<u64> {
    let factor = factor_of(source, operator)?;
    let open = open_before(source, operator)?;
    if !matches!(token_back(source, open, 2), Some(Token::Repeat)) {
        return None;
    }
    let turns = number_at(source, open.saturating_sub(1))?;
    let variable = source.word(operator.saturating_sub(1));
    let is_so = grows_past(factor, turns)
        && is_steady(source, open, variable, operator.saturating_sub(2));
    is_so.then_some(turns)
}

// Whether a client is started with the template of a name.
fn is_started(source: Source<'_>, name: &[u8]) -> bool {
    for place in 0..source.len() {
        let is_given = matches!(source.token(place), Some(Token::Assign))
            && matches!(
                source.token(place.saturating_add(2)),
                Some(Token::OpenParen)
            );
        if is_given && source.word(place.saturating_add(1)) == name {
            return true;
        }
    }
    false
}

// Whether the text at a place is some client's.
fn is_of_client(source: Source<'_>, place: usize) -> bool {
    for back in 1..=place {
        let at = place - back;
        match source.token(at) {
            Some(Token::Client) => return true,
            Some(Token::Template) => return is_started(source, source.word(at.saturating_add(1))),
            _ => {}
        }
    }
    false
}

// What is said of an operator whose result is held, where it is one.
fn held_at(alloc: Global, source: Source<'_>, place: usize) -> Result<Option<Held>, AllocError> {
    let mut cause = Vec::new(alloc);
    if matches!(source.token(place), Some(Token::Times)) && is_past(source, place) {
        put_all(
            &mut cause,
            &[b"this product goes over the range of 64 bits, so it is held at the bound"],
        )?;
        return Ok(Some(Held {
            cause,
            help: b"values are from -9223372036854775808 to 9223372036854775807",
        }));
    }
    if growing_turns(source, place).is_none() {
        return Ok(None);
    }
    let variable = source.word(place.saturating_sub(1));
    put_all(
        &mut cause,
        &[
            b"in this `repeat` ",
            variable,
            b" goes over the range of 64 bits, where it is held at the bound, unless it is 0 before",
        ],
    )?;
    Ok(Some(Held {
        cause,
        help: b"fewer turns keep it exact: values are from -9223372036854775808 to 9223372036854775807",
    }))
}

fn put_held(
    alloc: Global,
    out: &mut Vec<u8>,
    text: &[u8],
    span: Span,
    held: &Held,
) -> Result<(), AllocError> {
    if span.start > text.len() {
        return Ok(());
    }
    let diagnosis = Diagnosis {
        span,
        cause: held.cause.as_slice(),
        label: b"",
        help: held.help,
    };
    put_warning(alloc, out, text, &diagnosis)
}

/// Puts a warning of each product of two numbers that is out of the range of 64 bits, and of each variable that a
/// `repeat` multiplies out of it.
pub fn put_held_all(alloc: Global, out: &mut Vec<u8>, text: &[u8]) -> Result<(), AllocError> {
    let Ok(tokens) = placed_tokens(alloc, text) else {
        return Err(AllocError);
    };
    let source = Source::new(text, tokens.as_slice());
    for place in 0..source.len() {
        if !matches!(source.token(place), Some(Token::Times | Token::Plus)) {
            continue;
        }
        if let Some(held) = held_at(alloc, source, place)? {
            if is_of_client(source, place) {
                put_held(alloc, out, text, source.span(place), &held)?;
            }
        }
    }
    Ok(())
}
