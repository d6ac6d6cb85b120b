// What is said of a byte, a number or a name that is no token.

ghost use Rattle.std.specs.Prelude.{◌≡◌, IfOk};

use crate::causes::said::{Said, digits, say};
use qs_diagnosis::Span;
use qs_script::tokens::TokenFault;
use std::alloc::{AllocError, Global};

// How many bytes at the front of a text belong to a name, or are digits.
fn run(text: &[u8], only_digits: bool) -> usize {
    for (place, byte) in text.iter().enumerate() {
        let belongs = byte.is_ascii_digit()
            || (!only_digits && (byte.is_ascii_lowercase() || *byte == b'_'));
        if !belongs {
            return place;
        }
    }
    text.len()
}

/// How many bytes at the front of a text may stand in a name.
pub(crate) fn name_bytes(text: &[u8]) -> usize {
    run(text, false)
}

/// What is said of the token at fault that begins the rest of a text, with the byte before it.
pub(crate) fn say_token(
    alloc: Global,
    fault: TokenFault,
    start: usize,
    before: Option<u8>,
    rest: &[u8],
) -> Result<Said, AllocError>
    ensures start { IfOk result (λ said. said.span.start ≡ start) }
{
    match fault {
        TokenFault::Byte => say_byte(alloc, start, before, rest),
        TokenFault::Number => {
            let length = run(rest, true);
            let count = digits(alloc, length)?;
            let cause: &[&[u8]] = &[
                b"a number has at most 18 digits, and this has ",
                count.as_slice(),
            ];
            say(alloc, Span { start, length }, cause, &[], &[])
        }
        TokenFault::Name => {
            let length = run(rest, false);
            let count = digits(alloc, length)?;
            let cause: &[&[u8]] = &[
                b"a name has at most 16 characters, and this has ",
                count.as_slice(),
            ];
            say(
                alloc,
                Span { start, length },
                cause,
                &[],
                &[b"take a shorter name"],
            )
        }
    }
}

fn say_byte(
    alloc: Global,
    start: usize,
    before: Option<u8>,
    rest: &[u8],
) -> Result<Said, AllocError>
    ensures start { IfOk result (λ said. said.span.start ≡ start) }
{
    let span = Span { start, length: 1 };
    let (cause, help) = byte_words(before, rest);
    say(alloc, span, &[cause], &[], &[help])
}

// What is said of a byte by which no token begins, with what stands before it and from it on: the cause, and help.
fn byte_words(before: Option<u8>, rest: &[u8]) -> (&'static [u8], &'static [u8]) {
    match rest {
        [0xEF, 0xBB, 0xBF, ..] if before.is_none() => (
            b"the text begins with a byte order mark",
            b"save it as UTF-8 without one",
        ),
        [0xE2, 0x80, 0x98..=0x9F, ..] | [b'"' | b'\'', ..] => {
            (b"values are numbers, and no texts", b"")
        }
        [0x80..=0xFF, ..] => (
            b"names and words have the letters from a to z, and no others",
            b"write it with these letters; in a comment, after `#`, any letter may stand",
        ),
        [b'_', ..] if matches!(before, Some(b'0'..=b'9')) => {
            (
                b"a number is decimal digits alone",
                b"write 1000 for `1_000`",
            )
        }
        [b':', after @ ..] if begins_with_kind(after) => (
            b"no `:` stands between a name and its kind",
            b"leave it out, as in `object NAME account 100` and `account NAME`",
        ),
        [first, second, ..] => sign_words(*first, *second),
        [first] => sign_words(*first, b' '),
        [] => (b"no token begins with this byte", b""),
    }
}

// Whether a kind of object is the first word.
fn begins_with_kind(text: &[u8]) -> bool {
    let text = text.trim_ascii_start();
    text.starts_with(b"account") || text.starts_with(b"buffer") || text.starts_with(b"grid")
}

fn sign_words(first: u8, second: u8) -> (&'static [u8], &'static [u8]) {
    match first {
        b'/' if second == b'/' || second == b'*' => (
            b"a comment begins with `#`",
            b"write `# ..`, up to the end of the line",
        ),
        b'/' | b'%' => (b"there is no division", b""),
        b'A'..=b'Z' => (
            b"names and words have small letters",
            b"write it in small letters",
        ),
        b'_' => (b"a name begins with a letter", b""),
        b'&' | b'|' => (
            b"a condition is one comparison, without `and` and `or`",
            b"write one `if` inside another",
        ),
        b'!' => (
            b"there is no `not`; a `!` stands only before a `=`",
            b"write the comparison, as `NAME == 0` for `!NAME`",
        ),
        b':' if second == b'=' => (b"an assignment is written `=`", b"write `=` in its place"),
        b':' => (
            b"no `:` stands in a script; a body stands in braces",
            b"write `{` in its place, and `}` at the end of the body",
        ),
        b'[' | b']' => (
            b"no brackets stand in a script; arguments stand in parentheses",
            b"",
        ),
        _ => (b"no token begins with this byte", b""),
    }
}
