// What is warned of in the claims of a script and the conditions of a line, and of comments that are no claims.

use crate::line_causes::{conditions_on, kind_of, operation_of, placed_claims};
use crate::warned::certainties::{Certainty, certainty_of};
use crate::warned::words::put_taken;
use qs_check::Program;
use qs_conditions::{Condition, ConditionFault, Step, Sum, Summand, Value, read_condition};
use qs_diagnosis::{Diagnosis, Span, put_all, put_warning};
use qs_line::quantifier_of;
use qs_objects::Kind;
use qs_program::Atom;
use std::alloc::{AllocError, Global};

/// A condition, and where it begins in a text.
#[derive(Drop)]
pub(crate) struct Asked {
    start: usize,
    condition: Condition,
}

// Adds the condition of a text that begins at a place, where it can be parsed.
fn add_condition(
    alloc: Global,
    found: &mut Vec<Asked>,
    start: usize,
    text: &[u8],
) -> Result<(), AllocError> {
    match read_condition(alloc, text) {
        Ok(condition) => found.push(Asked { start, condition })?,
        Err(ConditionFault::Memory) => return Err(AllocError),
        Err(_) => {}
    }
    Ok(())
}

/// The conditions of a script's claims that can be parsed.
pub(crate) fn asked_in(alloc: Global, text: &[u8]) -> Result<Vec<Asked>, AllocError> {
    let mut found = Vec::new(alloc);
    for claim in &placed_claims(alloc, text)? {
        add_condition(alloc, &mut found, claim.start, claim.condition)?;
    }
    Ok(found)
}

fn is_variable(summand: &Summand, client: &[u8], variable: &[u8]) -> bool {
    match &summand.value {
        Value::Variable(first, second) => {
            first.as_slice() == client && second.as_slice() == variable
        }
        _ => false,
    }
}

fn sum_reads(sum: &Sum, client: &[u8], variable: &[u8]) -> bool {
    for summand in sum.as_slice() {
        if is_variable(summand, client, variable) {
            return true;
        }
    }
    false
}

fn condition_reads(condition: &Condition, client: &[u8], variable: &[u8]) -> bool {
    for step in condition.as_slice() {
        if let Step::Compare(left, _, right) = step {
            if sum_reads(left, client, variable) || sum_reads(right, client, variable) {
                return true;
            }
        }
    }
    false
}

/// Whether some condition reads the variable of a client.
pub(crate) fn some_reads(asked: &[Asked], client: &[u8], variable: &[u8]) -> bool {
    for it in asked {
        if condition_reads(&it.condition, client, variable) {
            return true;
        }
    }
    false
}

// The kind of the object of a query that is always answered by 0.
fn zero_kind(
    alloc: Global,
    program: &Program,
    summand: &Summand,
) -> Result<Option<Kind>, AllocError> {
    let Value::Reply(object, query, numbers) = &summand.value else {
        return Ok(None);
    };
    let Some(kind) = kind_of(program, object.as_slice()) else {
        return Ok(None);
    };
    let Some(op) = operation_of(kind, query.as_slice()) else {
        return Ok(None);
    };
    let mut atoms = Vec::new(alloc);
    for number in numbers.as_slice() {
        atoms.push(Atom::Number(*number))?;
    }
    match certainty_of(kind, op, atoms.as_slice()) {
        Some(Certainty::Zero) => Ok(Some(kind)),
        _ => Ok(None),
    }
}

// Warns of a query that begins a text's rest, and is always answered by 0.
fn put_zero(
    alloc: Global,
    out: &mut Vec<u8>,
    text: &[u8],
    start: usize,
    kind: Kind,
) -> Result<(), AllocError> {
    let start = start.min(text.len());
    let rest = &text[start..];
    let call = rest.split(|byte| *byte == b')').next().unwrap_or(rest);
    let name = call.split(|byte| *byte == b'.').next().unwrap_or(call);
    let name = name.trim_ascii_end();
    let mut cause = Vec::new(alloc);
    put_all(&mut cause, &[call, b") is always 0"])?;
    let mut help = Vec::new(alloc);
    put_taken(&mut help, name, kind)?;
    let diagnosis = Diagnosis {
        span: Span {
            start,
            length: name.len(),
        },
        cause: cause.as_slice(),
        label: b"",
        help: help.as_slice(),
    };
    put_warning(alloc, out, text, &diagnosis)
}

// Warns of each query of a sum that is always answered by 0.
fn put_zeros_of(
    alloc: Global,
    out: &mut Vec<u8>,
    text: &[u8],
    start: usize,
    sum: &Sum,
    program: &Program,
) -> Result<(), AllocError> {
    for summand in sum.as_slice() {
        if let Some(kind) = zero_kind(alloc, program, summand)? {
            put_zero(alloc, out, text, start.saturating_add(summand.place), kind)?;
        }
    }
    Ok(())
}

// Warns of each query of a condition of a text that is always answered by 0.
fn put_zeros(
    alloc: Global,
    out: &mut Vec<u8>,
    text: &[u8],
    asked: &Asked,
    program: &Program,
) -> Result<(), AllocError> {
    for step in asked.condition.as_slice() {
        if let Step::Compare(left, _, right) = step {
            put_zeros_of(alloc, out, text, asked.start, left, program)?;
            put_zeros_of(alloc, out, text, asked.start, right, program)?;
        }
    }
    Ok(())
}

// The mark in a line of a comment that looks like a claim and is none: it stands behind code, or has a blank inside.
fn stray_mark(line: &[u8]) -> Option<Span> {
    let start = line.iter().position(|byte| *byte == b'#')?;
    let (code, comment) = (&line[..start], &line[start + 1..]);
    let [b'?', said @ ..] = comment.trim_ascii_start() else {
        return None;
    };
    let length = comment.len().saturating_sub(said.len()).saturating_add(1);
    let said = said.trim_ascii_start();
    let word = said.split(u8::is_ascii_whitespace).next().unwrap_or(said);
    let is_so = if length == 2 {
        !code.trim_ascii_start().is_empty()
    } else {
        quantifier_of(word).is_some()
    };
    is_so.then_some(Span { start, length })
}

// Warns of each comment that looks like a claim and is none.
fn put_strays(alloc: Global, out: &mut Vec<u8>, text: &[u8]) -> Result<(), AllocError> {
    let mut begin = 0usize;
    for line in text.split(|byte| *byte == b'\n') {
        if let Some(mark) = stray_mark(line) {
            let start = begin.saturating_add(mark.start).min(text.len());
            let diagnosis = Diagnosis {
                span: Span {
                    start,
                    length: mark.length,
                },
                cause: b"this comment is no claim: a claim is a line of its own that begins with `#?`",
                label: b"",
                help: b"",
            };
            put_warning(alloc, out, text, &diagnosis)?;
        }
        begin = begin.saturating_add(line.len()).saturating_add(1);
    }
    Ok(())
}

/// Puts a warning of each comment of a text that looks like a claim and is none, and of each query in a claim of the
/// text or in a condition of the line that is always answered by 0.
pub fn put_claim_warnings<'a>(
    alloc: Global,
    out: &mut Vec<u8>,
    words: &'a [&'a str],
    text: &[u8],
    program: &Program,
) -> Result<(), AllocError> {
    put_strays(alloc, out, text)?;
    for asked in &asked_in(alloc, text)? {
        put_zeros(alloc, out, text, asked, program)?;
    }
    for condition in &conditions_on(alloc, words)? {
        let text = condition.as_bytes();
        let mut found = Vec::new(alloc);
        add_condition(alloc, &mut found, 0, text)?;
        for asked in &found {
            put_zeros(alloc, out, text, asked, program)?;
        }
    }
    Ok(())
}
