//! All tokens of a text.

ghost use Rattle.std.specs.Prelude.{◌≡◌, ◌<◌, ◌≤◌, ◌≢◌, ◌+◌, [], ◌∷◌, ◌++◌, length, drop, min, slice_index, vec_len, vec_capacity, IsTrue, false, Some, Ok, IfOk, IfErr};
ghost use Rattle.qs_script.specs.audit.tokens.Limits.{longest_name, most_digits};
ghost use Rattle.qs_script.specs.audit.tokens.Tokens.{tokens_of, first_byte, sign, is_space as space, is_letter as letter, is_digit as digit, is_name_byte};
ghost use Rattle.qs_script.specs.tokens.Cutting.{Adds, AddsMost, AddsAll, IsFirstFault, IsOnlyWith, BeginsNone, run_of};

use crate::tokens::lex::{Piece, Run, TokenFault, front, is, leading_number, run_end};
use crate::tokens::limits::{LONGEST_NAME, MOST_DIGITS};
use crate::tokens::name::Name;
use crate::tokens::number::Number;
use crate::tokens::token::Token;
use std::alloc::{AllocError, Global};

/// Why there is no list of a text's tokens: the first fault of the text, or memory ran out.
#[derive(Clone, Copy)]
pub enum TokensFault {
    Token(TokenFault),
    Memory,
}

impl From<AllocError> for TokensFault {
    ghost use Rattle.std.specs.Prelude.{◌≡◌};
    ghost use Rattle.qs_script.specs.declared.tokens.listing.TokensFault.TheVariants.{Memory};

    ghost from_gives = { λ _ e. e ≡ Memory };

    fn from(_: AllocError) -> TokensFault {
        TokensFault::Memory
    }
}

impl From<TokenFault> for TokensFault {
    ghost use Rattle.std.specs.Prelude.{◌≡◌};
    ghost use Rattle.qs_script.specs.declared.tokens.listing.TokensFault.TheVariants.{Token};

    ghost from_gives = { λ t e. e ≡ Token t };

    fn from(fault: TokenFault) -> TokensFault {
        TokensFault::Token(fault)
    }
}

// Adds a token, and gives the length of its text back.
#[inline(always)]
fn put(tokens: &mut Vec<Token>, token: Token, length: usize) -> Result<usize, TokenFault>
    requires room { vec_len tokens.old < vec_capacity tokens.old }
    ensures added { tokens.new.items ≡ tokens.old.items ++ token ∷ [] }
    ensures capacity { vec_capacity tokens.new ≡ vec_capacity tokens.old }
    ensures len { vec_len tokens.new ≡ vec_len tokens.old + 1 }
    ensures same { result ≡ Ok length }
{
    tokens.push_reserved(token);
    Ok(length)
}

// How many bytes are passed over where a piece of the text ends there: a space after it goes with it.
#[inline(always)]
fn with_space(text: &[u8], end: usize) -> usize
    requires within { end < length text.now }
    ensures same { tokens_of (drop result text.now) ≡ tokens_of (drop end text.now) }
    ensures least { end ≤ result }
    ensures within { result ≤ length text.now }
{
    if text[end] == b' ' { end + 1 } else { end }
}

// Adds the first sign where an = follows, which belongs to it, and else the second.
#[inline(always)]
fn put_compared(
    tokens: &mut Vec<Token>,
    with_equals: Token,
    alone: Token,
    text: &[u8],
) -> Result<usize, TokenFault>
    requires begins { first_byte (slice_index text.now 0) ≡ Ok ([], sign (Some alone) with_equals) }
    requires room { vec_len tokens.old < vec_capacity tokens.old }
    requires long { most_digits < length text.now }
    ensures exact { Adds tokens.old.items tokens.new.items result text.now }
    ensures some { IfOk result (λ n. 0 < n) }
    ensures within { IfOk result (λ n. n ≤ length text.now) }
    ensures most { vec_len tokens.new ≤ vec_len tokens.old + 1 }
    ensures capacity { vec_capacity tokens.new ≡ vec_capacity tokens.old }
{
    if text[1] == b'=' {
        put(tokens, with_equals, with_space(text, 2))
    } else {
        put(tokens, alone, with_space(text, 1))
    }
}

// Adds the token at the front, where one stands there, and gives how many bytes that took. Bytes with neighbours stand
// in two arms, since neighbours in one arm are told apart by their range, which is slower than a jump.
#[inline(always)]
fn add_front(tokens: &mut Vec<Token>, text: &[u8]) -> Result<usize, TokenFault>
    requires room { vec_len tokens.old < vec_capacity tokens.old }
    requires long { most_digits < length text.now }
    ensures exact { Adds tokens.old.items tokens.new.items result text.now }
    ensures some { IfOk result (λ n. 0 < n) }
    ensures within { IfOk result (λ n. n ≤ length text.now) }
    ensures most { vec_len tokens.new ≤ vec_len tokens.old + 1 }
    ensures capacity { vec_capacity tokens.new ≡ vec_capacity tokens.old }
{
    match text[0] {
        b' ' | b'\t' | b'\r' => Ok(with_space(text, 1)),
        b'\n' => Ok(with_space(text, 1)),
        b'a' => add_word(tokens, b"account", Token::Account, text),
        b'b' => add_word(tokens, b"buffer", Token::Buffer, text),
        b'c' => add_word(tokens, b"client", Token::Client, text),
        b'e' => add_word(tokens, b"else", Token::Else, text),
        b'g' => add_word(tokens, b"grid", Token::Grid, text),
        b'i' => add_word(tokens, b"if", Token::If, text),
        b'l' => add_word(tokens, b"leave", Token::Leave, text),
        b'o' => add_word(tokens, b"object", Token::Object, text),
        b'r' => add_word(tokens, b"repeat", Token::Repeat, text),
        b's' => add_word(tokens, b"separate", Token::Separate, text),
        b't' => add_word(tokens, b"template", Token::Template, text),
        b'd' | b'f' | b'h' | b'j' | b'm' | b'p' | b'u' | b'w' | b'y' => add_name(tokens, text),
        b'k' | b'n' | b'q' | b'v' | b'x' | b'z' => add_name(tokens, text),
        b'0' | b'2' | b'4' | b'6' | b'8' => add_number(tokens, text),
        b'1' | b'3' | b'5' | b'7' | b'9' => add_number(tokens, text),
        b'#' => Ok(run_end(Run::Comment, text)),
        _ => add_sign(tokens, text),
    }
}

// Adds the sign at the front, and gives its length, with a space after it where one often comes.
#[inline(always)]
fn add_sign(tokens: &mut Vec<Token>, text: &[u8]) -> Result<usize, TokenFault>
    requires not_letter { letter (slice_index text.now 0) ≡ false }
    requires not_digit { digit (slice_index text.now 0) ≡ false }
    requires not_space { space (slice_index text.now 0) ≡ false }
    requires not_comment { slice_index text.now 0 ≢ 35 }
    requires room { vec_len tokens.old < vec_capacity tokens.old }
    requires long { most_digits < length text.now }
    ensures exact { Adds tokens.old.items tokens.new.items result text.now }
    ensures some { IfOk result (λ n. 0 < n) }
    ensures within { IfOk result (λ n. n ≤ length text.now) }
    ensures most { vec_len tokens.new ≤ vec_len tokens.old + 1 }
    ensures capacity { vec_capacity tokens.new ≡ vec_capacity tokens.old }
{
    match text[0] {
        b'{' => put(tokens, Token::OpenBrace, with_space(text, 1)),
        b'}' => put(tokens, Token::CloseBrace, 1),
        b'(' => put(tokens, Token::OpenParen, 1),
        b')' => put(tokens, Token::CloseParen, 1),
        b',' => put(tokens, Token::Comma, with_space(text, 1)),
        b'.' => put(tokens, Token::Dot, 1),
        b';' => put(tokens, Token::Semicolon, with_space(text, 1)),
        b'+' => put(tokens, Token::Plus, with_space(text, 1)),
        b'-' => put(tokens, Token::Minus, with_space(text, 1)),
        b'*' => put(tokens, Token::Times, with_space(text, 1)),
        b'=' => put_compared(tokens, Token::Equal, Token::Assign, text),
        b'<' => put_compared(tokens, Token::AtMost, Token::Less, text),
        b'>' => put_compared(tokens, Token::AtLeast, Token::Greater, text),
        b'!' if text[1] == b'=' => put(tokens, Token::Unequal, 2),
        _ => Err(TokenFault::Byte),
    }
}

// Where the name at the front ends. No more bytes are looked at than show that it is too long.
#[inline(always)]
fn name_end(text: &[u8]) -> usize
    requires long { most_digits < length text.now }
    ensures end { result ≡ min (longest_name + 1) (run_of is_name_byte text.now) }
    ensures within { result ≤ length text.now }
{
    run_end(Run::Name, &text[..LONGEST_NAME + 1])
}

// Adds the name at the front, or the reserved word, which is the only one with its first letter, and gives its length.
#[inline(always)]
fn add_word(
    tokens: &mut Vec<Token>,
    word: &[u8],
    token: Token,
    text: &[u8],
) -> Result<usize, TokenFault>
    requires letter { IsTrue (letter (slice_index text.now 0)) }
    requires only { IsOnlyWith (slice_index text.now 0) word.now token }
    requires room { vec_len tokens.old < vec_capacity tokens.old }
    requires long { most_digits < length text.now }
    ensures exact { Adds tokens.old.items tokens.new.items result text.now }
    ensures some { IfOk result (λ n. 0 < n) }
    ensures within { IfOk result (λ n. n ≤ length text.now) }
    ensures most { vec_len tokens.new ≤ vec_len tokens.old + 1 }
    ensures capacity { vec_capacity tokens.new ≡ vec_capacity tokens.old }
{
    let end = name_end(text);
    if end > LONGEST_NAME {
        return Err(TokenFault::Name);
    }
    if is(&text[..end], word) {
        put(tokens, token, with_space(text, end))
    } else {
        put(
            tokens,
            Token::Name(Name::front(text, end)),
            with_space(text, end),
        )
    }
}

// Adds the name at the front, with whose first letter no reserved word begins, and gives its length.
#[inline(always)]
fn add_name(tokens: &mut Vec<Token>, text: &[u8]) -> Result<usize, TokenFault>
    requires letter { IsTrue (letter (slice_index text.now 0)) }
    requires none { BeginsNone (slice_index text.now 0) }
    requires room { vec_len tokens.old < vec_capacity tokens.old }
    requires long { most_digits < length text.now }
    ensures exact { Adds tokens.old.items tokens.new.items result text.now }
    ensures some { IfOk result (λ n. 0 < n) }
    ensures within { IfOk result (λ n. n ≤ length text.now) }
    ensures most { vec_len tokens.new ≤ vec_len tokens.old + 1 }
    ensures capacity { vec_capacity tokens.new ≡ vec_capacity tokens.old }
{
    let end = name_end(text);
    if end > LONGEST_NAME {
        return Err(TokenFault::Name);
    }
    put(
        tokens,
        Token::Name(Name::front(text, end)),
        with_space(text, end),
    )
}

// Adds the number at the front, and gives its length. No more digits are looked at than show that there are too many.
#[inline(always)]
fn add_number(tokens: &mut Vec<Token>, text: &[u8]) -> Result<usize, TokenFault>
    requires not_letter { letter (slice_index text.now 0) ≡ false }
    requires digit { IsTrue (digit (slice_index text.now 0)) }
    requires room { vec_len tokens.old < vec_capacity tokens.old }
    requires long { most_digits < length text.now }
    ensures exact { Adds tokens.old.items tokens.new.items result text.now }
    ensures some { IfOk result (λ n. 0 < n) }
    ensures within { IfOk result (λ n. n ≤ length text.now) }
    ensures most { vec_len tokens.new ≤ vec_len tokens.old + 1 }
    ensures capacity { vec_capacity tokens.new ≡ vec_capacity tokens.old }
{
    let (value, end) = leading_number(&text[..MOST_DIGITS + 1]);
    if end > MOST_DIGITS {
        return Err(TokenFault::Number);
    }
    put(
        tokens,
        Token::Number(Number::new(value)),
        with_space(text, end),
    )
}

// Adds the tokens at the front, up to few bytes before the end, and gives the bytes after them.
#[inline(always)]
fn add_most<'t>(tokens: &mut Vec<Token>, text: &'t [u8]) -> Result<&'t [u8], TokenFault>
    requires room { vec_len tokens.old + length text.now ≤ vec_capacity tokens.old }
    ensures exact { AddsMost tokens.old.items tokens.new.items result text.now }
    ensures room { IfOk result (λ rest. vec_len tokens.new + length rest.now ≤ vec_capacity tokens.new) }
{
    let mut rest = text;
    'each: while rest.len() > MOST_DIGITS {
        match add_front(tokens, rest) {
            Ok(taken) => rest = &rest[taken..],
            Err(fault) => return Err(fault),
        }
    }
    Ok(rest)
}

// Adds the tokens of the text.
#[inline(always)]
fn add_last(tokens: &mut Vec<Token>, text: &[u8]) -> Result<(), TokenFault>
    requires room { vec_len tokens.old + length text.now ≤ vec_capacity tokens.old }
    ensures exact { AddsAll tokens.old.items tokens.new.items result text.now }
{
    let mut rest = text;
    'each: while !rest.is_empty() {
        let (piece, after) = front(rest)?;
        if let Piece::Token(token) = piece {
            tokens.push_reserved(token);
        }
        rest = after;
    }
    Ok(())
}

/// All tokens of a text in order, or its first fault. `Memory` may come at any allocation.
pub fn list_tokens(alloc: Global, text: &[u8]) -> Result<Vec<Token>, TokensFault>
    ensures tokens { IfOk result (λ tokens. tokens_of text.now ≡ Ok tokens.items) }
    ensures fault { IfErr result (IsFirstFault (tokens_of text.now)) }
{
    let mut tokens = Vec::with_capacity(alloc, text.len())?;
    let rest = add_most(&mut tokens, text)?;
    add_last(&mut tokens, rest)?;
    Ok(tokens)
}
