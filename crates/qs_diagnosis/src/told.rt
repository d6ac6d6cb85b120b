// A diagnosis as lines of text.

ghost use Rattle.std.specs.Prelude.{◌≡◌, ◌≤◌, ◌++◌, IfOk, OnOk, length};
ghost use Rattle.std.specs.Prelude.{◌+◌, ◌<◌, ◌-◌};
ghost use Rattle.qs_diagnosis.specs.Diagnoses.{IsExcerpt, IsPut, IsTold, IsWarned, excerpt_text, excerpt_in, token_of, cause_text, help_text, dots_if, blank, label_text, marks_text, place_text, source_text, under_text};

use crate::bytes::{blanks, marks, put, put_all, shown_bytes};
use crate::spot::{Spot, line_end, spot_of};
use crate::window::{Window, around};
use itoa::Buffer;
use std::alloc::{AllocError, Global};
use std::str;

/// Bytes of a text that stand together: a token, or the text's end.
#[derive(Clone, Copy, Debug, PartialEq, Eq)]
pub struct Span {
    /// How many bytes stand before them.
    pub start: usize,
    /// How many there are; none at the text's end.
    pub length: usize,
}

/// What is wrong at a place of a text.
#[derive(Clone, Copy)]
pub struct Diagnosis<'a> {
    /// Where it is.
    pub span: Span,
    /// What is wrong, in a sentence.
    pub cause: &'a [u8],
    /// What stands beside the marks below the source line; nothing, where it is empty.
    pub label: &'a [u8],
    /// What to do about it; no line of help, where it is empty.
    pub help: &'a [u8],
}

// Two dots where a line is cut.
fn dots(is_cut: bool) -> &'static [u8]
    ensures dots { result.now ≡ dots_if is_cut }
{
    if is_cut { b".." } else { b"" }
}

// The number of a line, as its text has it, and as many blanks.
fn gutter_blanks(alloc: Global, line: usize) -> Result<Vec<u8>, AllocError>
    ensures blanks { IfOk result (λ v. v.items ≡ blank line) }
{
    let mut buffer = Buffer::new();
    blanks(alloc, buffer.format(line).as_bytes())
}

// Puts the line of the place, and one without a text.
fn put_place(out: &mut Vec<u8>, spot: Spot, gutter: &[u8]) -> Result<(), AllocError>
    requires { gutter.now ≡ blank spot.line }
    ensures ok { OnOk result (out.new.items ≡ out.old.items ++ place_text spot) }
{
    let mut line = Buffer::new();
    let mut column = Buffer::new();
    put_all(
        out,
        &[
            gutter,
            b"--> line ",
            line.format(spot.line).as_bytes(),
            b", column ",
            column.format(spot.column).as_bytes(),
            b"\n",
            gutter,
            b" |\n",
        ],
    )
}

// The part of a line that is shown.
#[derive(Clone, Copy)]
struct Excerpt<'a> {
    bytes: &'a [u8],
    is_text: bool,
    is_cut_before: bool,
    is_cut_after: bool,
}

// Puts the source line.
fn put_source(
    alloc: Global,
    out: &mut Vec<u8>,
    line: usize,
    part: &Excerpt<'_>,
) -> Result<(), AllocError>
    ensures ok { OnOk result (out.new.items
        ≡ out.old.items
        ++ source_text line part.now.is_text part.now.bytes.now part.now.is_cut_before part.now.is_cut_after) }
{
    let shown = shown_bytes(alloc, part.is_text, part.bytes)?;
    let mut number = Buffer::new();
    put_all(
        out,
        &[
            number.format(line).as_bytes(),
            b" | ",
            dots(part.is_cut_before),
            shown.as_slice(),
            dots(part.is_cut_after),
            b"\n",
        ],
    )
}

// The marks below a token, and one where it has no bytes.
fn token_marks(alloc: Global, is_text: bool, token: &[u8]) -> Result<Vec<u8>, AllocError>
    ensures marks { IfOk result (λ v. v.items ≡ marks_text is_text token.now) }
{
    let mut under = marks(alloc, is_text, b'^', token)?;
    if under.is_empty() {
        under.push(b'^')?;
    }
    Ok(under)
}

// Puts what is said beside the marks, after a blank, and a line's end.
fn put_label(out: &mut Vec<u8>, label: &[u8]) -> Result<(), AllocError>
    ensures ok { OnOk result (out.new.items ≡ out.old.items ++ label_text label.now) }
{
    if label.is_empty() {
        return put(out, b"\n");
    }
    put_all(out, &[b" ", label, b"\n"])
}

// Puts the line below the source line: marks below the token, and what is said beside them.
fn put_under(
    alloc: Global,
    out: &mut Vec<u8>,
    gutter: &[u8],
    part: &Excerpt<'_>,
    before: &[u8],
    token: &[u8],
    label: &[u8],
) -> Result<(), AllocError>
    ensures ok { OnOk result (out.new.items
        ≡ out.old.items
        ++ under_text gutter.now part.now.is_text before.now token.now part.now.is_cut_before label.now) }
{
    let dotted = blanks(alloc, dots(part.is_cut_before))?;
    let pad = marks(alloc, part.is_text, b' ', before)?;
    let under = token_marks(alloc, part.is_text, token)?;
    put_all(
        out,
        &[
            gutter,
            b" | ",
            dotted.as_slice(),
            pad.as_slice(),
            under.as_slice(),
        ],
    )?;
    put_label(out, label)
}

// The bytes of a token that stand in a window around its beginning.
fn token_in(text: &[u8], window: Window, span: Span) -> &[u8]
    requires before { window.from ≤ span.start }
    requires after { span.start ≤ window.to }
    requires within { window.to ≤ length text.now }
    ensures token { result.now ≡ token_of text.now window span }
{
    let rest = &text[span.start..window.to];
    if span.length <= rest.len() {
        &rest[..span.length]
    } else {
        rest
    }
}

// Puts the place of a diagnosis, the part of its line that stands in a window, and the line below it.
fn put_windowed(
    alloc: Global,
    out: &mut Vec<u8>,
    text: &[u8],
    diagnosis: &Diagnosis<'_>,
    spot: Spot,
    start: usize,
    end: usize,
) -> Result<(), AllocError>
    requires before { start ≤ diagnosis.now.span.start }
    requires after { diagnosis.now.span.start ≤ end }
    requires within { end ≤ length text.now }
    ensures ok { OnOk result (IsExcerpt out.old.items out.new.items
        (λ is_text. excerpt_in is_text text.now diagnosis.now.span diagnosis.now.label.now spot start end)) }
{
    let span = diagnosis.span;
    let window = around(start, end, span.start);
    let bytes = &text[window.from..window.to];
    let part = Excerpt {
        bytes,
        is_text: str::from_utf8(bytes).is_ok(),
        is_cut_before: start < window.from,
        is_cut_after: window.to < end,
    };
    let gutter = gutter_blanks(alloc, spot.line)?;
    put_place(out, spot, gutter.as_slice())?;
    put_source(alloc, out, spot.line, &part)?;
    put_under(
        alloc,
        out,
        gutter.as_slice(),
        &part,
        &text[window.from..span.start],
        token_in(text, window, span),
        diagnosis.label,
    )
}

// Puts the place of a diagnosis, its line, and the line below it.
fn put_excerpt(
    alloc: Global,
    out: &mut Vec<u8>,
    text: &[u8],
    diagnosis: &Diagnosis<'_>,
) -> Result<(), AllocError>
    requires within { diagnosis.now.span.start ≤ length text.now }
    ensures ok { OnOk result (IsExcerpt out.old.items out.new.items
        (λ is_text. excerpt_text is_text text.now diagnosis.now.span diagnosis.now.label.now)) }
{
    let place = diagnosis.span.start;
    let spot = spot_of(text, place);
    let start = place - (spot.column - 1);
    let end = line_end(text, place);
    put_windowed(alloc, out, text, diagnosis, spot, start, end)
}

// Puts the line of the cause, after a head.
fn put_cause(out: &mut Vec<u8>, head: &[u8], cause: &[u8]) -> Result<(), AllocError>
    ensures ok { OnOk result (out.new.items ≡ out.old.items ++ cause_text head.now cause.now) }
{
    put_all(out, &[head, cause, b"\n"])
}

// Puts the line of help, where there is some.
fn put_help(alloc: Global, out: &mut Vec<u8>, line: usize, help: &[u8]) -> Result<(), AllocError>
    ensures ok { OnOk result (out.new.items ≡ out.old.items ++ help_text line help.now) }
{
    if help.is_empty() {
        return Ok(());
    }
    let gutter = gutter_blanks(alloc, line)?;
    put_all(out, &[gutter.as_slice(), b" = help: ", help, b"\n"])
}

// Puts the lines of a diagnosis, the first after a head.
fn put_headed(
    alloc: Global,
    out: &mut Vec<u8>,
    head: &[u8],
    text: &[u8],
    diagnosis: &Diagnosis<'_>,
) -> Result<(), AllocError>
    requires within { diagnosis.now.span.start ≤ length text.now }
    ensures ok { OnOk result (IsPut head.now text.now diagnosis.now out.old.items out.new.items) }
{
    put_cause(out, head, diagnosis.cause)?;
    put_excerpt(alloc, out, text, diagnosis)?;
    let line = spot_of(text, diagnosis.span.start).line;
    put_help(alloc, out, line, diagnosis.help)
}

/// Puts a diagnosis at the end: the cause, the place with its line and column, the source line with the token
/// underlined, and help where there is some.
pub fn put_diagnosis(
    alloc: Global,
    out: &mut Vec<u8>,
    text: &[u8],
    diagnosis: &Diagnosis<'_>,
) -> Result<(), AllocError>
    requires within { diagnosis.now.span.start ≤ length text.now }
    ensures ok { OnOk result (IsTold text.now diagnosis.now out.old.items out.new.items) }
{
    put_headed(alloc, out, b"error: ", text, diagnosis)
}

/// Puts a diagnosis at the end as a warning: the same lines, of which the first says so.
pub fn put_warning(
    alloc: Global,
    out: &mut Vec<u8>,
    text: &[u8],
    diagnosis: &Diagnosis<'_>,
) -> Result<(), AllocError>
    requires within { diagnosis.now.span.start ≤ length text.now }
    ensures ok { OnOk result (IsWarned text.now diagnosis.now out.old.items out.new.items) }
{
    put_headed(alloc, out, b"warning: ", text, diagnosis)
}
