// What is said of a place of a text.

ghost use Rattle.std.specs.Prelude.{◌≡◌, IfOk, decimal, flat_map};

use crate::causes::source::Source;
use itoa::Buffer;
use qs_diagnosis::{Span, put, put_all, spot_of};
use std::alloc::{AllocError, Global};

/// What is said of a place of a text: the cause, what stands beside the marks, and help.
#[derive(Drop)]
pub(crate) struct Said {
    pub(crate) span: Span,
    pub(crate) cause: Vec<u8>,
    pub(crate) label: Vec<u8>,
    pub(crate) help: Vec<u8>,
}

/// A text, for as long as the other parts of a sentence are there.
pub(crate) fn part<'a>(text: &'static [u8]) -> &'a [u8]
    ensures same { result.now ≡ text.now }
{
    text
}

/// Texts one after another.
pub(crate) fn joined(alloc: Global, texts: &[&[u8]]) -> Result<Vec<u8>, AllocError>
    ensures joined { IfOk result (λ out. out.items ≡ flat_map (λ text. text.now) texts.now) }
{
    let mut out = Vec::new(alloc);
    put_all(&mut out, texts)?;
    Ok(out)
}

/// What is said of a place, each part by texts one after another.
pub(crate) fn say(
    alloc: Global,
    span: Span,
    cause: &[&[u8]],
    label: &[&[u8]],
    help: &[&[u8]],
) -> Result<Said, AllocError>
    ensures span { IfOk result (λ said. said.span ≡ span) }
    ensures cause { IfOk result (λ said. said.cause.items ≡ flat_map (λ text. text.now) cause.now) }
    ensures label { IfOk result (λ said. said.label.items ≡ flat_map (λ text. text.now) label.now) }
    ensures help { IfOk result (λ said. said.help.items ≡ flat_map (λ text. text.now) help.now) }
{
    let cause = joined(alloc, cause)?;
    let label = joined(alloc, label)?;
    let help = joined(alloc, help)?;
    Ok(Said {
        span,
        cause,
        label,
        help,
    })
}

/// A number's digits.
pub(crate) fn digits(alloc: Global, number: usize) -> Result<Vec<u8>, AllocError>
    ensures digits { IfOk result (λ out. out.items ≡ decimal number) }
{
    let mut buffer = Buffer::new();
    joined(alloc, &[buffer.format(number).as_bytes()])
}

/// The number of the line of a token.
pub(crate) fn line_digits(
    alloc: Global,
    source: Source<'_>,
    place: usize,
) -> Result<Vec<u8>, AllocError> {
    let text = source.text();
    let start = source.span(place).start;
    if start > text.len() {
        return digits(alloc, 0);
    }
    digits(alloc, spot_of(text, start).line)
}

/// The words at some places, joined by commas; `none` where there is no place.
pub(crate) fn words_at(
    alloc: Global,
    source: Source<'_>,
    places: &[usize],
    none: &[u8],
) -> Result<Vec<u8>, AllocError> {
    let mut out = Vec::new(alloc);
    for place in places {
        if !out.is_empty() {
            put(&mut out, b", ")?;
        }
        put(&mut out, source.word(*place))?;
    }
    if out.is_empty() {
        put(&mut out, none)?;
    }
    Ok(out)
}
