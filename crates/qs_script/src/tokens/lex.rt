//! From bytes to tokens.

ghost use Rattle.std.specs.Prelude.{◌≡◌, ◌-◌, ◌+◌, ◌^◌, drop, take, ◌<◌, ◌≤◌, ◌≢◌, length, slice_index, IsTrue, IfOk, All, false};
ghost use Rattle.qs_script.specs.audit.tokens.Limits.{most_digits};
ghost use Rattle.qs_script.specs.audit.tokens.Tokens.{is_digit as digit, is_letter as letter, is_space as space, is_name_byte, at, equals_signs, value_of, word_token, tokens_of, same};
ghost use Rattle.qs_script.specs.tokens.Cutting.{Cuts, in_run, run_of, or_name, with_equals, alone};

use crate::tokens::limits::{LONGEST_NAME, MOST_DIGITS};
use crate::tokens::name::Name;
use crate::tokens::number::Number;
use crate::tokens::token::Token;

/// Why a text has no tokens.
#[derive(Clone, Copy)]
pub enum TokenFault {
    Byte,
    Number,
    Name,
}

/// What stands at the front of a text: a token, a line's end, or another space or a comment.
#[derive(Drop)]
pub enum Piece {
    Token(Token),
    Line,
    Gap,
}

// Bytes that belong together.
#[derive(Clone, Copy)]
pub(crate) enum Run {
    Name,
    Digits,
    Comment,
}

// For each byte an n where it may stand in a name, else a dot.
static NAME_BYTES: [u8; 256] = *b"\
    ................................\
    ................nnnnnnnnnn......\
    ...............................n\
    .nnnnnnnnnnnnnnnnnnnnnnnnnn.....\
    ................................\
    ................................\
    ................................\
    ................................";

#[inline(always)]
fn in_name(b: u8) -> bool
    ensures { result ≡ is_name_byte b }
{
    NAME_BYTES[b as usize] == b'n'
}

#[inline(always)]
fn belongs(run: Run, b: u8) -> bool
    ensures { result ≡ in_run run b }
{
    match run {
        Run::Name => in_name(b),
        Run::Digits => b.is_ascii_digit(),
        Run::Comment => b != b'\n',
    }
}

// Where the run at the front ends.
#[inline(always)]
pub(crate) fn run_end(run: Run, text: &[u8]) -> usize
    ensures run { result ≡ run_of (in_run run) text.now }
    ensures within { result ≤ length text.now }
{
    for (i, b) in text.iter().enumerate() {
        if !belongs(run, *b) {
            return i;
        }
    }
    text.len()
}

/// The piece at the front, and what comes after it.
pub fn front(text: &[u8]) -> Result<(Piece, &[u8]), TokenFault>
    requires some { 0 < length text.now }
    ensures exact { Cuts result (tokens_of text.now) }
    ensures shorter { IfOk result (λ x. length x.1.now < length text.now) }
    ensures suffix { IfOk result (λ x. x.1.now ≡ drop (length text.now - length x.1.now) text.now) }
{
    let first = text[0];
    if first.is_ascii_lowercase() {
        front_word(text)
    } else if first.is_ascii_digit() {
        front_number(text)
    } else if first == b'\n' {
        Ok((Piece::Line, &text[1..]))
    } else if first == b' ' || first == b'\t' || first == b'\r' {
        Ok((Piece::Gap, &text[1..]))
    } else if first == b'#' {
        Ok((Piece::Gap, &text[run_end(Run::Comment, text)..]))
    } else {
        front_sign(text)
    }
}

// The name or reserved word at the front, and what comes after it.
#[inline(always)]
fn front_word(text: &[u8]) -> Result<(Piece, &[u8]), TokenFault>
    requires some { 0 < length text.now }
    requires letter { IsTrue (letter (slice_index text.now 0)) }
    ensures exact { Cuts result (tokens_of text.now) }
    ensures shorter { IfOk result (λ x. length x.1.now < length text.now) }
    ensures suffix { IfOk result (λ x. x.1.now ≡ drop (length text.now - length x.1.now) text.now) }
{
    let end = run_end(Run::Name, text);
    if end > LONGEST_NAME {
        return Err(TokenFault::Name);
    }
    match reserved(&text[..end]) {
        Some(token) => Ok((Piece::Token(token), &text[end..])),
        None => Ok((
            Piece::Token(Token::Name(Name::front(text, end))),
            &text[end..],
        )),
    }
}

// The reserved word that this is, if it is one. No two of them begin with the same letter.
#[inline(always)]
pub(crate) fn reserved(word: &[u8]) -> Option<Token>
    ensures { word_token word.now ≡ or_name word.now result }
{
    match word {
        [b'o', ..] if is(word, b"object") => Some(Token::Object),
        [b'c', ..] if is(word, b"client") => Some(Token::Client),
        [b's', ..] if is(word, b"separate") => Some(Token::Separate),
        [b'i', ..] if is(word, b"if") => Some(Token::If),
        [b'e', ..] if is(word, b"else") => Some(Token::Else),
        [b'r', ..] if is(word, b"repeat") => Some(Token::Repeat),
        [b'l', ..] if is(word, b"leave") => Some(Token::Leave),
        [b'a', ..] if is(word, b"account") => Some(Token::Account),
        [b'b', ..] if is(word, b"buffer") => Some(Token::Buffer),
        [b'g', ..] if is(word, b"grid") => Some(Token::Grid),
        [b't', ..] if is(word, b"template") => Some(Token::Template),
        _ => None,
    }
}

// Whether the word is this one.
#[inline(always)]
pub(crate) fn is(word: &[u8], reserved: &[u8]) -> bool
    ensures { result ≡ same word.now reserved.now }
{
    word == reserved
}

// The number at the front, and what comes after it.
#[inline(always)]
pub(crate) fn front_number(text: &[u8]) -> Result<(Piece, &[u8]), TokenFault>
    requires some { 0 < length text.now }
    requires not_letter { letter (slice_index text.now 0) ≡ false }
    requires digit { IsTrue (digit (slice_index text.now 0)) }
    ensures exact { Cuts result (tokens_of text.now) }
    ensures shorter { IfOk result (λ x. length x.1.now < length text.now) }
    ensures suffix { IfOk result (λ x. x.1.now ≡ drop (length text.now - length x.1.now) text.now) }
{
    let (digits, rest) = text.split_at(run_end(Run::Digits, text));
    if digits.len() > MOST_DIGITS {
        return Err(TokenFault::Number);
    }
    Ok((
        Piece::Token(Token::Number(Number::new(number_of(digits)))),
        rest,
    ))
}

// The sign at the front, and what comes after it.
#[inline(always)]
fn front_sign(text: &[u8]) -> Result<(Piece, &[u8]), TokenFault>
    requires some { 0 < length text.now }
    requires not_letter { letter (slice_index text.now 0) ≡ false }
    requires not_digit { digit (slice_index text.now 0) ≡ false }
    requires not_space { space (slice_index text.now 0) ≡ false }
    requires not_comment { slice_index text.now 0 ≢ 35 }
    ensures exact { Cuts result (tokens_of text.now) }
    ensures shorter { IfOk result (λ x. length x.1.now < length text.now) }
    ensures suffix { IfOk result (λ x. x.1.now ≡ drop (length text.now - length x.1.now) text.now) }
{
    let rest = &text[1..];
    if !rest.is_empty() && rest[0] == b'=' {
        if let Some(token) = sign_with_equals(text[0]) {
            return Ok((Piece::Token(token), &text[2..]));
        }
    }
    match sign_alone(text[0]) {
        Some(token) => Ok((Piece::Token(token), rest)),
        None => Err(TokenFault::Byte),
    }
}

// The sign of the byte with = after it, if it is one.
#[inline(always)]
pub(crate) fn sign_with_equals(b: u8) -> Option<Token>
    ensures { result ≡ with_equals (at b equals_signs) }
{
    match b {
        b'=' => Some(Token::Equal),
        b'<' => Some(Token::AtMost),
        b'>' => Some(Token::AtLeast),
        b'!' => Some(Token::Unequal),
        _ => None,
    }
}

// The sign of the byte alone, if it is one.
#[inline(always)]
pub(crate) fn sign_alone(b: u8) -> Option<Token>
    ensures { result ≡ alone b (at b equals_signs) }
{
    match b {
        b'{' => Some(Token::OpenBrace),
        b'}' => Some(Token::CloseBrace),
        b'(' => Some(Token::OpenParen),
        b')' => Some(Token::CloseParen),
        b',' => Some(Token::Comma),
        b'.' => Some(Token::Dot),
        b';' => Some(Token::Semicolon),
        b'+' => Some(Token::Plus),
        b'-' => Some(Token::Minus),
        b'*' => Some(Token::Times),
        b'=' => Some(Token::Assign),
        b'<' => Some(Token::Less),
        b'>' => Some(Token::Greater),
        _ => None,
    }
}

// The number that the digits at the front write, and where they end. Nineteen digits fit.
#[inline(always)]
#[tactic(auto, using(crate::proofs::tokens::Powers::ten_mono))]
pub(crate) fn leading_number(text: &[u8]) -> (u64, usize)
    requires short { length text.now ≤ most_digits + 1 }
    ensures end { result.1 ≡ run_of digit text.now }
    ensures within { result.1 ≤ length text.now }
    ensures value { result.0 ≡ value_of (take result.1 text.now) }
    ensures small { result.0 < 10 ^ result.1 }
{
    let mut value: u64 = 0;
    for (i, b) in text.iter().enumerate() {
        if !b.is_ascii_digit() {
            return (value, i);
        }
        value = value * 10 + u64::from(*b - b'0');
    }
    (value, text.len())
}

// The number that at most eighteen digits write.
#[inline(always)]
#[tactic(auto, using(crate::proofs::tokens::Powers::ten_mono))]
pub(crate) fn number_of(digits: &[u8]) -> u64
    requires short { length digits.now ≤ most_digits }
    requires digits { All (λ b. IsTrue (digit b)) digits.now }
    ensures value { result ≡ value_of digits.now }
    ensures small { result < 1000000000000000000 }
{
    let mut value = 0;
    for b in digits {
        value = value * 10 + u64::from(*b - b'0');
    }
    value
}
