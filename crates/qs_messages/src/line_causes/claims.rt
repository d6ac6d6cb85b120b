// What is said of the claims of a script, where these are asked and cannot be.

use crate::line_causes::condition::{NO_CLAIM, Quoted, put_unknown_in, put_unparsed};
use crate::line_causes::program::program_of;
use qs_check::Program;
use qs_diagnosis::{Diagnosis, Span, put, put_diagnosis};
use qs_line::{Settings, claim_parts, quantifier_of, read_line};
use std::alloc::{AllocError, Global};

const WORDS: &[u8] =
    b"`#?` is followed by `always`, `some`, `throughout`, `ever` or `never`, and by a condition";

const NONE: &[u8] =
    b"error: no condition stands on the line, and the script has no claim\n  = help: write one on the line, as `--always 'OBJECT.balance() == 98'`, or in the script, as a line `#? always OBJECT.balance() == 98`\n";

/// A line of a script that begins with `#?`: the word behind that, and the condition, with where it begins in the text.
#[derive(Clone, Copy)]
pub(crate) struct PlacedClaim<'a> {
    pub(crate) word: &'a [u8],
    pub(crate) start: usize,
    pub(crate) condition: &'a [u8],
}

/// The lines of a script's text that begin with `#?`.
pub(crate) fn placed_claims<'a>(
    alloc: Global,
    text: &'a [u8],
) -> Result<Vec<PlacedClaim<'a>>, AllocError> {
    let mut claims = Vec::new(alloc);
    let mut end = 0usize;
    for line in text.split(|byte| *byte == b'\n') {
        end = end.saturating_add(line.len());
        if let Some((word, condition)) = claim_parts(line) {
            claims.push(PlacedClaim {
                word,
                start: end.saturating_sub(condition.len()),
                condition,
            })?;
        }
        end = end.saturating_add(1);
    }
    Ok(claims)
}

// Whether a line asks the claims of the script.
fn asks_the_script<'a>(alloc: Global, words: &'a [&'a str]) -> bool {
    match read_line(alloc, words) {
        Ok(Settings::Ask { questions, .. }) => questions.is_empty(),
        _ => false,
    }
}

// Puts that a line's word is no quantifier's.
fn put_word(
    alloc: Global,
    out: &mut Vec<u8>,
    text: &[u8],
    start: usize,
    word: &[u8],
) -> Result<(), AllocError> {
    let span = Span {
        start: start.min(text.len()),
        length: word.len().max(1),
    };
    put_diagnosis(
        alloc,
        out,
        text,
        &Diagnosis {
            cause: NO_CLAIM,
            span,
            label: b"",
            help: WORDS,
        },
    )
}

// Puts what is wrong with a claim of a text, if something is.
fn put_claim(
    alloc: Global,
    out: &mut Vec<u8>,
    text: &[u8],
    claim: PlacedClaim<'_>,
    program: &Program,
) -> Result<(), AllocError> {
    let PlacedClaim {
        word,
        start,
        condition,
    } = claim;
    if quantifier_of(word).is_none() {
        return put_word(alloc, out, text, start.saturating_sub(word.len()), word);
    }
    let quoted = Quoted {
        text,
        start,
        condition,
        is_claim: true,
    };
    put_unparsed(alloc, out, quoted)?;
    if out.is_empty() {
        put_unknown_in(alloc, out, quoted, program)?;
    }
    Ok(())
}

/// Puts what is wrong with the first claim of a script's text that cannot be parsed, or asks for what the script does not
/// have, where a line asks the script's claims; or that the script has none.
pub(crate) fn put_claims<'a>(
    alloc: Global,
    out: &mut Vec<u8>,
    words: &'a [&'a str],
    text: &[u8],
) -> Result<(), AllocError> {
    if !asks_the_script(alloc, words) {
        return Ok(());
    }
    let Some(program) = program_of(alloc, text) else {
        return Ok(());
    };
    let claims = placed_claims(alloc, text)?;
    if claims.is_empty() {
        return put(out, NONE);
    }
    for claim in &claims {
        if out.is_empty() {
            put_claim(alloc, out, text, *claim, &program)?;
        }
    }
    Ok(())
}
