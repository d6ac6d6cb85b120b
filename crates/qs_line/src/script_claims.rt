// The claims of a script: lines of its text that begin with `#?`.

ghost use Rattle.std.specs.Prelude.{◌≡◌, ◌==◌, ◌≤◌, IfOk, length, map, option_map};
ghost use Rattle.std.specs.List.{position_or_len, slice_split};
ghost use Rattle.qs_line.specs.ScriptClaims.{after_word, behind_mark as behind_mark_in, claim_parts as claim_parts_in, claim_said, claims_in as claims_of, first_word, from_word as from_word_in, is_kind, quantifier_in};

use crate::question::Question;
use qs_conditions::{Claim, ConditionFault, Quantifier, read_condition};
use std::alloc::{AllocError, Global};

// Whether a byte is a blank, or else whether it is none.
fn is_kind(blank: bool, byte: u8) -> bool
    ensures exact { result ≡ is_kind blank byte }
{
    (byte == b' ' || byte == b'\t') == blank
}

// Where a blank first stands in a text, or else what is none; its end, where none does.
fn place_of(blank: bool, text: &[u8]) -> usize
    ensures place { result ≡ position_or_len (is_kind blank) text.now }
    ensures within { result ≤ length text.now }
{
    let mut place = 0;
    while place < text.len() {
        if is_kind(blank, text[place]) {
            return place;
        }
        place += 1;
    }
    place
}

// A text without the blanks at its beginning.
fn from_word(text: &[u8]) -> &[u8]
    ensures word { result.now ≡ from_word_in text.now }
{
    &text[place_of(false, text)..]
}

// What stands behind the mark of a claim, where a text begins with it.
fn behind_mark(text: &[u8]) -> Option<&[u8]>
    ensures behind { option_map (λ rest. rest.now) result ≡ behind_mark_in text.now }
{
    match text {
        [b'#', b'?', rest @ ..] => Some(rest),
        _ => None,
    }
}

// The word at the beginning of a text, and what stands behind it.
fn word_and_rest(text: &[u8]) -> (&[u8], &[u8])
    ensures word { result.0.now ≡ first_word text.now }
    ensures rest { result.1.now ≡ after_word text.now }
{
    let place = place_of(true, text);
    (&text[..place], &text[place..])
}

/// The quantifier of a word.
pub fn quantifier_of(word: &[u8]) -> Option<Quantifier>
    ensures quantifier { result ≡ quantifier_in word.now }
{
    if word == b"always".as_slice() {
        Some(Quantifier::Always)
    } else if word == b"some".as_slice() {
        Some(Quantifier::Some)
    } else if word == b"throughout".as_slice() {
        Some(Quantifier::Throughout)
    } else if word == b"ever".as_slice() {
        Some(Quantifier::Ever)
    } else if word == b"never".as_slice() {
        Some(Quantifier::Never)
    } else {
        None
    }
}

/// The word and the rest of a line of a script, where it begins with `#?`, but for blanks.
pub fn claim_parts(line: &[u8]) -> Option<(&[u8], &[u8])>
    ensures parts { option_map (λ parts. (parts.0.now, parts.1.now)) result ≡ claim_parts_in line.now }
{
    let said = behind_mark(from_word(line))?;
    Some(word_and_rest(from_word(said)))
}

// The claim that a word and the rest of a line make.
fn claim_of(
    alloc: Global,
    line: usize,
    word: &[u8],
    rest: &[u8],
) -> Result<Option<Question>, AllocError>
    ensures claim { IfOk result (λ claim. claim ≡ claim_said line word.now rest.now) }
{
    let Some(quantifier) = quantifier_of(word) else {
        return Ok(None);
    };
    match read_condition(alloc, rest) {
        Ok(condition) => Ok(Some(Question::Claim(Claim {
            line,
            quantifier,
            condition,
        }))),
        Err(ConditionFault::Memory) => Err(AllocError),
        Err(_) => Ok(None),
    }
}

// The lines of a text.
fn lines_of<'a>(alloc: Global, text: &'a [u8]) -> Result<Vec<&'a [u8]>, AllocError>
    ensures lines { IfOk result (λ lines. map (λ line. line.now) lines.items ≡ slice_split (λ byte. byte == 10) text.now) }
{
    text.split(|byte| *byte == b'\n').collect(alloc)
}

/// The claims of a script's text, in the order of its lines; None exactly where a line begins with `#?` and is no claim.
/// An error says that memory ran out.
pub fn claims_in(alloc: Global, text: &[u8]) -> Result<Option<Vec<Question>>, AllocError>
    ensures claims { IfOk result (λ claims. option_map (λ all. all.items) claims ≡ claims_of text.now) }
{
    let lines = lines_of(alloc, text)?;
    let mut claims = Vec::new(alloc);
    for (index, line) in lines.as_slice().iter().enumerate() {
        if let Some((word, rest)) = claim_parts(line) {
            match claim_of(alloc, index + 1, word, rest)? {
                Some(claim) => claims.push(claim)?,
                None => return Ok(None),
            }
        }
    }
    Ok(Some(claims))
}
