// From bytes to signs.

ghost use Rattle.std.specs.Prelude.{◌≡◌, ◌<◌, ◌≤◌, ◌+◌, ◌^◌, length, take, drop, slice_index, Ok, Err, IfOk, IfErr};
ghost use Rattle.qs_script.specs.audit.tokens.Tokens.{is_digit as digit, is_name_byte, is_space, at, value_of};
ghost use Rattle.qs_script.specs.tokens.Cutting.{run_of};
ghost use Rattle.qs_conditions.specs.Signs.{pairs, singles, pair_of, name_sign as name_by, number_sign as number_by, byte_at, sign_at, signs_of};
ghost use Rattle.qs_conditions.specs.SignResults.{IsFaultOf};

use crate::fault::ConditionFault;
use crate::limits::{LONGEST_NAME, MOST_DIGITS};
use qs_script::tokens::{Name, Number};
use qs_script::tree::{Relation, add};
use std::alloc::Global;

/// A piece of a condition's text: a name, a number or a sign.
#[derive(Drop)]
pub enum Sign {
    Name(Name),
    Number(Number),
    Dot,
    Open,
    Close,
    Comma,
    Plus,
    Minus,
    Relation(Relation),
    And,
    Or,
    Not,
}

/// A sign, and how many bytes stand before it in the text.
#[derive(Drop)]
pub struct Placed {
    pub place: usize,
    pub sign: Sign,
}

// Whether a byte is a space.
fn space(b: u8) -> bool
    ensures exact { result ≡ is_space b }
{
    b == b' ' || b == b'\t' || b == b'\r' || b == b'\n'
}

// Whether a byte may stand in a name.
fn in_name(b: u8) -> bool
    ensures exact { result ≡ is_name_byte b }
{
    b.is_ascii_lowercase() || b.is_ascii_digit() || b == b'_'
}

// How many bytes at the front may stand in a name.
fn name_length(text: &[u8]) -> usize
    ensures exact { result ≡ run_of is_name_byte text.now }
    ensures within { result ≤ length text.now }
{
    for (i, b) in text.iter().enumerate() {
        if !in_name(*b) {
            return i;
        }
    }
    text.len()
}

// The number that the digits at the front write, and how many they are. Nineteen digits fit.
fn leading_number(text: &[u8]) -> (u64, usize)
    requires short { length text.now ≤ 19 }
    ensures end { result.1 ≡ run_of digit text.now }
    ensures within { result.1 ≤ length text.now }
    ensures value { result.0 ≡ value_of (take result.1 text.now) }
    ensures small { result.0 < 10 ^ result.1 }
{
    let mut value: u64 = 0;
    for (i, b) in text.iter().enumerate() {
        if !b.is_ascii_digit() {
            return (value, i);
        }
        value = value * 10 + u64::from(*b - b'0');
    }
    (value, text.len())
}

// The name at the front, and how many bytes it has.
fn name_sign(place: usize, text: &[u8]) -> Result<(Sign, usize), ConditionFault>
    ensures exact { result ≡ name_by place text.now (run_of is_name_byte text.now) }
{
    let end = name_length(text);
    if end > LONGEST_NAME {
        return Err(ConditionFault::Name { place });
    }
    Ok((Sign::Name(Name::front(text, end)), end))
}

// The number at the front, and how many bytes it has.
fn number_sign(place: usize, text: &[u8]) -> Result<(Sign, usize), ConditionFault>
    ensures exact { result ≡ number_by place text.now (run_of digit text.now) }
{
    let (value, end) = leading_number(&text[..(MOST_DIGITS + 1).min(text.len())]);
    if end > MOST_DIGITS {
        return Err(ConditionFault::Number { place });
    }
    Ok((Sign::Number(Number::new(value)), end))
}

// The byte that makes a sign with this one before it, and the sign.
fn second_of(b: u8) -> Option<(u8, Sign)>
    ensures exact { result ≡ at b pairs }
{
    match b {
        b'=' => Some((b'=', Sign::Relation(Relation::Equal))),
        b'!' => Some((b'=', Sign::Relation(Relation::Unequal))),
        b'<' => Some((b'=', Sign::Relation(Relation::AtMost))),
        b'>' => Some((b'=', Sign::Relation(Relation::AtLeast))),
        b'&' => Some((b'&', Sign::And)),
        b'|' => Some((b'|', Sign::Or)),
        _ => None,
    }
}

// The sign of the byte alone, if it is one.
fn single(b: u8) -> Option<Sign>
    ensures exact { result ≡ at b singles }
{
    match b {
        b'.' => Some(Sign::Dot),
        b'(' => Some(Sign::Open),
        b')' => Some(Sign::Close),
        b',' => Some(Sign::Comma),
        b'+' => Some(Sign::Plus),
        b'-' => Some(Sign::Minus),
        b'<' => Some(Sign::Relation(Relation::Less)),
        b'>' => Some(Sign::Relation(Relation::Greater)),
        b'!' => Some(Sign::Not),
        _ => None,
    }
}

// The sign that the byte makes with the one after it, if it makes one.
fn pair(b: u8, rest: &[u8]) -> Option<Sign>
    ensures exact { result ≡ pair_of (at b pairs) rest.now }
{
    let (second, sign) = second_of(b)?;
    if !rest.is_empty() && rest[0] == second {
        return Some(sign);
    }
    None
}

// The sign at the front, where neither a name nor a number stands, and how many bytes it has.
fn byte_sign(place: usize, text: &[u8]) -> Result<(Sign, usize), ConditionFault>
    requires some { 0 < length text.now }
    ensures exact { result ≡ byte_at place (slice_index text.now 0) (drop 1 text.now) }
{
    if let Some(sign) = pair(text[0], &text[1..]) {
        return Ok((sign, 2));
    }
    match single(text[0]) {
        Some(sign) => Ok((sign, 1)),
        None => Err(ConditionFault::Byte { place }),
    }
}

// The name, number or sign at the front of what follows that many bytes, and how many bytes it has.
fn front(place: usize, text: &[u8]) -> Result<(Sign, usize), ConditionFault>
    requires some { 0 < length text.now }
    ensures exact { result ≡ sign_at place text.now }
{
    let first = text[0];
    if first.is_ascii_lowercase() {
        name_sign(place, text)
    } else if first.is_ascii_digit() {
        number_sign(place, text)
    } else {
        byte_sign(place, text)
    }
}

// The signs of a text, or its first fault.
pub(crate) fn list_signs(alloc: Global, text: &[u8]) -> Result<Vec<Placed>, ConditionFault>
    ensures signs { IfOk result (λ signs. signs_of text.now ≡ Ok signs.items) }
    ensures fault { IfErr result (λ fault. IsFaultOf text.now fault) }
{
    let mut signs = Vec::new(alloc);
    let mut place = 0;
    'each: while place < text.len() {
        if space(text[place]) {
            place += 1;
        } else {
            let (sign, bytes) = front(place, &text[place..])?;
            add(&mut signs, Placed { place, sign })?;
            place += bytes;
        }
    }
    Ok(signs)
}
