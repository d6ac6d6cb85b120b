// What is said of a condition that cannot be parsed, or that asks for what the script does not have.

use crate::causes::{joined, name_bytes, part};
use crate::line_causes::line::CLAIMS;
use crate::line_causes::program::program_of;
use crate::line_causes::unknown::{Asked, asked_at, asked_in, say_unknown, span_of};
use qs_check::Program;
use qs_conditions::{ConditionFault, read_condition, read_sum};
use qs_diagnosis::{Diagnosis, Span, put_diagnosis};
use qs_line::value_after;
use qs_questions::{first_unknown, first_unknown_in_sum};
use std::alloc::{AllocError, Global};

const UNPARSED: &[u8] = b"the condition cannot be parsed";

const UNKNOWN: &[u8] = b"the condition asks for what the script does not have";

const NO_SUM: &[u8] = b"the sum cannot be parsed";

const UNKNOWN_SUM: &[u8] = b"the sum asks for what the script does not have";

const SUM: &[u8] =
    b"a sum adds up numbers, variables and queries, as in `OBJECT.balance() + CLIENT.NAME - 3`";

// The setting that takes a sum.
const VALUES: &str = "--values";

const FORM: &[u8] =
    b"a condition compares sums, as in `OBJECT.balance() + 5 >= CLIENT.NAME`, and `&&`, `||`, `!` and parentheses join comparisons";

// What is meant at a place of a condition: what is wrong there, and either help in words, in which a `|` is the word at
// the place, or what to write in place of so many bytes from there on.
#[derive(Clone, Copy)]
struct Meant {
    span: Span,
    cause: &'static [u8],
    help: &'static [u8],
    replaced: usize,
    by: &'static [u8],
}

// What is meant, with help in words.
fn advised(span: Span, cause: &'static [u8], help: &'static [u8]) -> Option<Meant> {
    Some(Meant {
        span,
        cause,
        help,
        replaced: 0,
        by: b"",
    })
}

// What is meant, with what to write in place of some bytes.
fn rewritten(
    span: Span,
    cause: &'static [u8],
    replaced: usize,
    by: &'static [u8],
) -> Option<Meant> {
    Some(Meant {
        span,
        cause,
        help: b"",
        replaced,
        by,
    })
}

// Help in words, with the word of the text.
fn advice_of(alloc: Global, word: &[u8], help: &'static [u8]) -> Result<Vec<u8>, AllocError> {
    let mut out = Vec::new(alloc);
    for piece in help.split(|byte| *byte == b'|') {
        if !out.is_empty() {
            out.extend_from_slice(word)?;
        }
        out.extend_from_slice(piece)?;
    }
    Ok(out)
}

// The help for what is meant: where it has no words of its own, the whole text as it is to be written.
fn help_of(alloc: Global, text: &[u8], meant: Meant) -> Result<Vec<u8>, AllocError> {
    let start = meant.span.start.min(text.len());
    let (front, rest) = (&text[..start], &text[start..]);
    if !meant.help.is_empty() {
        let word = &rest[..meant.span.length.min(rest.len())];
        return advice_of(alloc, word, meant.help);
    }
    let rest = &rest[meant.replaced.min(rest.len())..];
    joined(
        alloc,
        &[
            b"write `",
            front.trim_ascii_start(),
            part(meant.by),
            rest.trim_ascii_end(),
            b"`",
        ],
    )
}

// What other languages write in place of a sign, from its byte on.
fn for_sign(start: usize, rest: &[u8]) -> Option<Meant> {
    let span = Span { start, length: 1 };
    match rest {
        [b'=', b'<', ..] => rewritten(span, b"at most is written `<=`", 2, b"<="),
        [b'=', b'>', ..] => rewritten(span, b"at least is written `>=`", 2, b">="),
        [b'=', ..] => rewritten(span, b"equality is written `==`", 1, b"=="),
        [b'&', ..] => rewritten(span, b"`and` is written `&&`", 1, b"&&"),
        [b'|', ..] => rewritten(span, b"`or` is written `||`", 1, b"||"),
        [b'*', ..] => advised(
            span,
            b"a condition has sums, and no products",
            b"add a value up, as in `CLIENT.NAME + CLIENT.NAME`",
        ),
        [b'A'..=b'Z', ..] => advised(
            span,
            b"names have small letters",
            b"write it in small letters",
        ),
        _ => None,
    }
}

fn for_word(span: Span, word: &[u8]) -> Option<Meant> {
    match word {
        b"and" => rewritten(span, b"`and` is written `&&`", 3, b"&&"),
        b"or" => rewritten(span, b"`or` is written `||`", 2, b"||"),
        b"not" => advised(span, b"`not` is written `!`", b"write `!(COND)`"),
        b"if" => advised(span, b"a condition stands alone", b"leave the `if` out"),
        _ => None,
    }
}

// What stands before a place, without the spaces at its end.
fn front_of(text: &[u8], place: usize) -> &[u8] {
    text[..place.min(text.len())].trim_ascii_end()
}

// The name or number that ends right before a place, but for spaces.
fn word_before(text: &[u8], place: usize) -> Span {
    let front = front_of(text, place);
    for start in 0..front.len() {
        if name_bytes(&front[start..]) == front.len() - start {
            return Span {
                start,
                length: front.len() - start,
            };
        }
    }
    Span {
        start: front.len(),
        length: 0,
    }
}

// A name that stands alone, with what comes after it: there is no `.` before it and none behind it.
fn for_name(text: &[u8], span: Span, rest: &[u8]) -> Option<Meant> {
    let is_name = matches!(text.get(span.start), Some(b'a'..=b'z'));
    if !is_name || front_of(text, span.start).ends_with(b".") {
        return None;
    }
    if rest.starts_with(b"(") {
        return advised(span, b"a query names its object", b"write `OBJECT.|(..)`");
    }
    advised(
        span,
        b"a variable is named with its client, and a query with its object",
        b"write `CLIENT.|` or `OBJECT.|()`",
    )
}

// What is meant at an unexpected place of a condition: by the word there, or by the one before it.
fn meant_by_word(text: &[u8], place: usize) -> Option<Meant> {
    let rest = &text[place.min(text.len())..];
    let here = Span {
        start: place,
        length: name_bytes(rest),
    };
    if let Some(meant) = for_word(here, &rest[..here.length.min(rest.len())]) {
        return Some(meant);
    }
    let before = word_before(text, place);
    let front = front_of(text, place);
    let word = &front[before.start.min(front.len())..];
    for_word(before, word).or(for_name(text, before, rest))
}

// What is meant at a fault.
fn meant_at(text: &[u8], fault: ConditionFault) -> Option<Meant> {
    match fault {
        ConditionFault::Byte { place } => for_sign(place, &text[place.min(text.len())..]),
        ConditionFault::Form { place } => meant_by_word(text, place),
        _ => None,
    }
}

/// A condition in a text: that of a line's word, which is all of it, or that of a claim in a script.
#[derive(Clone, Copy)]
pub(crate) struct Quoted<'a> {
    pub(crate) text: &'a [u8],
    /// Where the condition begins in the text.
    pub(crate) start: usize,
    pub(crate) condition: &'a [u8],
    pub(crate) is_claim: bool,
}

// How a cause begins that is a condition's; and what it begins with where the condition is that of a claim of a script.
const CONDITION: &[u8] = b"the condition";

/// That a claim of a script cannot be parsed.
pub(crate) const NO_CLAIM: &[u8] = b"a claim of the script cannot be parsed";

const CLAIM: &[u8] = b"a claim of the script";

// What is wrong with a condition: with that of a claim, by words that say so.
fn cause_in(alloc: Global, quoted: Quoted<'_>, cause: &[u8]) -> Result<Vec<u8>, AllocError> {
    if !quoted.is_claim {
        return joined(alloc, &[cause]);
    }
    if cause.starts_with(CONDITION) && cause.len() >= CONDITION.len() {
        return joined(alloc, &[CLAIM, &cause[CONDITION.len()..]]);
    }
    joined(alloc, &[NO_CLAIM, b": ", cause])
}

// Puts a cause with its place in a condition.
fn put_at(
    alloc: Global,
    out: &mut Vec<u8>,
    quoted: Quoted<'_>,
    span: Span,
    cause: &[u8],
    label: &[u8],
    help: &[u8],
) -> Result<(), AllocError> {
    let start = quoted.start.saturating_add(span.start);
    let span = Span {
        start: start.min(quoted.text.len()),
        length: span.length,
    };
    let whole = cause_in(alloc, quoted, cause)?;
    put_diagnosis(
        alloc,
        out,
        quoted.text,
        &Diagnosis {
            cause: whole.as_slice(),
            span,
            label,
            help,
        },
    )
}

// Where a condition cannot be parsed, and why.
fn place_of(fault: ConditionFault, condition: &[u8]) -> Option<(usize, &'static [u8])> {
    match fault {
        ConditionFault::Byte { place } => Some((place, b"unexpected character")),
        ConditionFault::Number { place } => Some((place, b"a number has at most 18 digits")),
        ConditionFault::Name { place } => Some((place, b"a name has at most 16 bytes")),
        ConditionFault::Form { place } if place < condition.len() => {
            Some((place, b"unexpected"))
        }
        ConditionFault::Form { place } => Some((
            place,
            b"the condition ends here, and more is expected",
        )),
        ConditionFault::Memory => None,
    }
}

// Whether a word of a line is a setting, with its value behind a `=` or in the next word.
fn is_setting(word: &str, setting: &str) -> bool {
    match word.strip_prefix(setting) {
        Some(rest) => rest.is_empty() || rest.starts_with("="),
        None => false,
    }
}

// A condition that is all of a word.
fn whole<'a>(word: &'a str) -> Quoted<'a> {
    Quoted {
        text: word.as_bytes(),
        start: 0,
        condition: word.as_bytes(),
        is_claim: false,
    }
}

/// The conditions that stand on a line.
pub(crate) fn conditions_on<'a>(
    alloc: Global,
    words: &'a [&'a str],
) -> Result<Vec<&'a str>, AllocError> {
    let mut found = Vec::new(alloc);
    for (place, word) in words.iter().enumerate() {
        for setting in CLAIMS {
            if is_setting(word, setting) {
                if let Some(condition) = value_after(&words[place..], setting) {
                    found.push(condition)?;
                }
            }
        }
    }
    Ok(found)
}

/// Puts where the first condition after a setting that cannot be parsed cannot, if one stands on the line.
pub(crate) fn put_condition<'a>(
    alloc: Global,
    out: &mut Vec<u8>,
    words: &'a [&'a str],
    setting: &str,
) -> Result<(), AllocError> {
    for (place, word) in words.iter().enumerate() {
        if out.is_empty() && is_setting(word, setting) {
            if let Some(condition) = value_after(&words[place..], setting) {
                put_unparsed(alloc, out, whole(condition))?;
            }
        }
    }
    Ok(())
}

// Puts why a condition or a sum cannot be parsed.
fn put_fault(
    alloc: Global,
    out: &mut Vec<u8>,
    quoted: Quoted<'_>,
    fault: ConditionFault,
    cause: &[u8],
    help: &[u8],
) -> Result<(), AllocError> {
    let text = quoted.condition;
    if let Some(meant) = meant_at(text, fault) {
        let help = help_of(alloc, text, meant)?;
        return put_at(
            alloc,
            out,
            quoted,
            meant.span,
            meant.cause,
            b"",
            help.as_slice(),
        );
    }
    match place_of(fault, text) {
        Some((start, label)) => {
            let length = name_bytes(&text[start.min(text.len())..]).max(1);
            put_at(
                alloc,
                out,
                quoted,
                Span { start, length },
                cause,
                label,
                help,
            )
        }
        None => Err(AllocError),
    }
}

/// Puts where a condition cannot be parsed, if it cannot.
pub(crate) fn put_unparsed(
    alloc: Global,
    out: &mut Vec<u8>,
    quoted: Quoted<'_>,
) -> Result<(), AllocError> {
    match read_condition(alloc, quoted.condition) {
        Ok(_) => Ok(()),
        Err(fault) => put_fault(alloc, out, quoted, fault, UNPARSED, FORM),
    }
}

/// Puts where the first sum of a line that cannot be parsed cannot, if one stands there.
pub(crate) fn put_sum<'a>(
    alloc: Global,
    out: &mut Vec<u8>,
    words: &'a [&'a str],
) -> Result<(), AllocError> {
    for (place, word) in words.iter().enumerate() {
        if out.is_empty() && is_setting(word, VALUES) {
            if let Some(sum) = value_after(&words[place..], VALUES) {
                if let Err(fault) = read_sum(alloc, sum.as_bytes()) {
                    put_fault(alloc, out, whole(sum), fault, NO_SUM, SUM)?;
                }
            }
        }
    }
    Ok(())
}

/// Puts where the first condition after a setting that asks for what the script of a text does not have does so, if one
/// does.
pub(crate) fn put_unknown<'a>(
    alloc: Global,
    out: &mut Vec<u8>,
    words: &'a [&'a str],
    text: &[u8],
    setting: &str,
) -> Result<(), AllocError> {
    for (place, word) in words.iter().enumerate() {
        if out.is_empty() && is_setting(word, setting) {
            if let Some(condition) = value_after(&words[place..], setting) {
                if let Some(program) = program_of(alloc, text) {
                    put_unknown_in(alloc, out, whole(condition), &program)?;
                }
            }
        }
    }
    Ok(())
}

// Puts that a condition or a sum asks at a place for what a script does not have.
fn put_unknown_at(
    alloc: Global,
    out: &mut Vec<u8>,
    quoted: Quoted<'_>,
    program: &Program,
    place: usize,
    value: Option<Asked<'_>>,
    cause: &[u8],
) -> Result<(), AllocError> {
    let Some(value) = value else {
        return Ok(());
    };
    let unknown = say_unknown(alloc, program, value)?;
    let span = span_of(quoted.condition, place, value, &unknown);
    let (label, help) = (unknown.label.as_slice(), unknown.help.as_slice());
    put_at(alloc, out, quoted, span, cause, label, help)
}

/// Puts where a condition asks for what a script does not have, if it does.
pub(crate) fn put_unknown_in(
    alloc: Global,
    out: &mut Vec<u8>,
    quoted: Quoted<'_>,
    program: &Program,
) -> Result<(), AllocError> {
    let Ok(asked) = read_condition(alloc, quoted.condition) else {
        return Ok(());
    };
    match first_unknown(&asked, program) {
        Some(place) => {
            let value = asked_at(&asked, place);
            put_unknown_at(alloc, out, quoted, program, place, value, UNKNOWN)
        }
        None => Ok(()),
    }
}

/// Puts where the first sum of a line that asks for what the script of a text does not have does so, if one does.
pub(crate) fn put_unknown_sum<'a>(
    alloc: Global,
    out: &mut Vec<u8>,
    words: &'a [&'a str],
    text: &[u8],
) -> Result<(), AllocError> {
    for (place, word) in words.iter().enumerate() {
        if out.is_empty() && is_setting(word, VALUES) {
            if let Some(sum) = value_after(&words[place..], VALUES) {
                put_unknown_of(alloc, out, sum, text)?;
            }
        }
    }
    Ok(())
}

// Puts where a sum asks for what the script of a text does not have, if it does.
fn put_unknown_of(
    alloc: Global,
    out: &mut Vec<u8>,
    sum: &str,
    text: &[u8],
) -> Result<(), AllocError> {
    let (Some(program), Ok(asked)) = (program_of(alloc, text), read_sum(alloc, sum.as_bytes()))
    else {
        return Ok(());
    };
    match first_unknown_in_sum(&asked, &program) {
        Some(place) => {
            let value = asked_in(&asked, place);
            put_unknown_at(alloc, out, whole(sum), &program, place, value, UNKNOWN_SUM)
        }
        None => Ok(()),
    }
}
