// What is said of a fault of form.

ghost use Rattle.std.specs.Prelude.{◌≡◌, IfOk, IfSome, IsTrue, option_map};
ghost use Rattle.qs_messages.specs.ReadTold.{IsAt, IsSpot, is_arrow as is_arrow_of, is_word as is_word_of};
ghost use Rattle.qs_messages.specs.Sources.{end_in, span_in};

use crate::causes::expected::expected;
use crate::causes::filled::filled;
use crate::causes::finding::FormFault;
use crate::causes::follow::follow_at;
use crate::causes::foreign::{foreign_at, open_before};
use crate::causes::said::{Said, joined, line_digits, part, say};
use crate::causes::source::Source;
use crate::causes::stage::{Around, Stage, around_at, token_back};
use crate::causes::usual::{Usual, usual_at};
use crate::causes::words::is_near;
use qs_diagnosis::Span;
use qs_script::tokens::Token;
use std::alloc::{AllocError, Global};

// Whether a token is a name, a number or a kind of object.
fn is_word(token: Option<&Token>) -> bool
    ensures exact { result ≡ is_word_of (option_map (λ token. token.now) token.entry) }
{
    matches!(
        token,
        Some(Token::Name(_) | Token::Number(_) | Token::Account | Token::Buffer | Token::Grid)
    )
}

// Whether two tokens are an arrow of other languages.
fn is_arrow(first: Option<&Token>, second: Option<&Token>) -> bool
    ensures exact { result ≡ is_arrow_of (option_map (λ token. token.now) first.entry) (option_map (λ token. token.now) second.entry) }
{
    match (first, second) {
        (Some(Token::Minus), Some(Token::Greater)) => true,
        (Some(Token::Less), Some(Token::Minus)) => true,
        _ => false,
    }
}

// The token at a place, or an arrow that begins there, or the word before it where that is wanted and is there.
fn spot(source: Source<'_>, place: usize, is_before: bool) -> Span
    ensures spot { IsAt source.entry.text.now source.entry.tokens.now place result }
{
    let before = place.saturating_sub(1);
    if is_before && is_word(source.token(before)) {
        return source.span(before);
    }
    let (here, next) = (source.span(place), place.saturating_add(1));
    let touches = source.end_of(place).start == source.span(next).start;
    if touches && is_arrow(source.token(place), source.token(next)) {
        Span {
            start: here.start,
            length: 2,
        }
    } else {
        here
    }
}

/// What is said of a fault of form.
pub(crate) fn say_form(
    alloc: Global,
    source: Source<'_>,
    fault: FormFault,
) -> Result<Said, AllocError>
    ensures spot { IfOk result (λ said. IsSpot source.entry.text.now source.entry.tokens.now fault.place (IsTrue fault.ends) said.span) }
{
    let follow = follow_at(alloc, source.text(), fault.place)?;
    let around = around_at(source, fault.place, &follow);
    let label = expected(alloc, source, fault.place, &follow)?;
    match say_mistake(alloc, source, around, fault.place, label.as_slice())? {
        Some(said) => Ok(said),
        None => say_fault(alloc, source, around.stage, fault, label.as_slice()),
    }
}

// Says what a new user means who writes this at a place, where that is known.
fn say_mistake(
    alloc: Global,
    source: Source<'_>,
    around: Around,
    place: usize,
    expected: &[u8],
) -> Result<Option<Said>, AllocError>
    ensures spot { IfOk result (λ found. IfSome found (λ said. IsAt source.entry.text.now source.entry.tokens.now place said.span)) }
{
    if let Some(usual) = foreign_at(source, around, place) {
        return Ok(Some(say_usual(alloc, source, place, usual, expected)?));
    }
    if let Some(meant) = meant(alloc, around.stage, source.word(place))? {
        return Ok(Some(say_near(alloc, source, place, meant, expected)?));
    }
    if let Some(usual) = usual_at(source, around, place) {
        return Ok(Some(say_usual(alloc, source, place, usual, expected)?));
    }
    if around.stage == Stage::AfterName {
        let word = source.word(place.saturating_sub(1));
        if let Some(meant) = meant_before(alloc, word, source.token(place))? {
            return Ok(Some(say_near_before(alloc, source, place, meant)?));
        }
    }
    Ok(None)
}

fn say_usual(
    alloc: Global,
    source: Source<'_>,
    place: usize,
    usual: Usual,
    expected: &[u8],
) -> Result<Said, AllocError>
    ensures spot { IfOk result (λ said. IsAt source.entry.text.now source.entry.tokens.now place said.span) }
{
    let help = if usual.help.is_empty() {
        open_help(alloc, source, place)?
    } else {
        filled(alloc, source, place, usual.help)?
    };
    let label = if usual.is_before {
        joined(alloc, &[])?
    } else {
        joined(alloc, &[b"expected ", expected])?
    };
    say(
        alloc,
        spot(source, place, usual.is_before),
        &[usual.cause],
        &[label.as_slice()],
        &[help.as_slice()],
    )
}

// Says which word is meant at a place.
fn say_near(
    alloc: Global,
    source: Source<'_>,
    place: usize,
    meant: &'static [u8],
    expected: &[u8],
) -> Result<Said, AllocError>
    ensures spot { IfOk result (λ said. IsAt source.entry.text.now source.entry.tokens.now place said.span) }
{
    let word = source.word(place);
    say(
        alloc,
        spot(source, place, false),
        &[b"unexpected `", word, b"`"],
        &[b"expected ", expected],
        &[b"is `", word, b"` meant to be `", part(meant), b"`?"],
    )
}

// Says which word is meant by the name before a place, which begins a statement.
fn say_near_before(
    alloc: Global,
    source: Source<'_>,
    place: usize,
    meant: &'static [u8],
) -> Result<Said, AllocError>
    ensures spot { IfOk result (λ said. IsAt source.entry.text.now source.entry.tokens.now place said.span) }
{
    let before = place.saturating_sub(1);
    let follow = follow_at(alloc, source.text(), before)?;
    let label = expected(alloc, source, before, &follow)?;
    let word = source.word(before);
    say(
        alloc,
        spot(source, place, true),
        &[b"unexpected `", word, b"`"],
        &[b"expected ", label.as_slice()],
        &[b"is `", word, b"` meant to be `", part(meant), b"`?"],
    )
}

// Says what is wrong at a place, by what may stand there in words.
fn say_fault(
    alloc: Global,
    source: Source<'_>,
    stage: Stage,
    fault: FormFault,
    expected: &[u8],
) -> Result<Said, AllocError>
    ensures spot { IfOk result (λ said. IsSpot source.entry.text.now source.entry.tokens.now fault.place (IsTrue fault.ends) said.span) }
{
    let place = fault.place;
    if fault.ends {
        return say_semicolon(alloc, source, place.saturating_sub(1));
    }
    if let Some(number) = number_missing(source, stage, place) {
        return say_number(alloc, source, place, number);
    }
    if place >= source.len() {
        let help = open_help(alloc, source, place)?;
        return say_end(alloc, source, place, expected, help.as_slice());
    }
    say(
        alloc,
        source.span(place),
        &[b"unexpected `", source.word(place), b"`"],
        &[b"expected ", expected],
        &[],
    )
}

// A number that an object's declaration wants: what it is, and how it is written.
#[derive(Clone, Copy)]
struct Wanted {
    what: &'static [u8],
    help: &'static [u8],
}

// The number of a declaration that is missing at a place, where the text ends or another item begins there: by the token
// before it.
fn number_missing(source: Source<'_>, stage: Stage, place: usize) -> Option<Wanted> {
    match source.token(place) {
        None | Some(Token::Object | Token::Client | Token::Template) if stage == Stage::Size => {}
        _ => return None,
    }
    match token_back(source, place, 1)? {
        Token::Account => Some(Wanted {
            what: b"the balance to begin with",
            help: b"write a number from 0 to 1000000000000000, as in `object NAME account 100`",
        }),
        Token::Buffer => Some(Wanted {
            what: b"the number of places",
            help: b"write a number from 1 to 1024, as in `object NAME buffer 4`",
        }),
        Token::Grid => Some(Wanted {
            what: b"the numbers of rows and columns",
            help: b"write two numbers from 1 to 16, as in `object NAME grid 2 3`",
        }),
        Token::Number(_) => Some(Wanted {
            what: b"the number of columns",
            help: b"write two numbers from 1 to 16, as in `object NAME grid 2 3`",
        }),
        _ => None,
    }
}

// Says that a number is missing after the word before a place.
fn say_number(
    alloc: Global,
    source: Source<'_>,
    place: usize,
    number: Wanted,
) -> Result<Said, AllocError>
    ensures spot { IfOk result (λ said. IsAt source.entry.text.now source.entry.tokens.now place said.span) }
{
    say(
        alloc,
        spot(source, place, true),
        &[
            b"a number is missing after `",
            source.word(place.saturating_sub(1)),
            b"`",
        ],
        &[b"expected ", number.what],
        &[number.help],
    )
}

fn say_semicolon(alloc: Global, source: Source<'_>, before: usize) -> Result<Said, AllocError>
    ensures span { IfOk result (λ said. said.span ≡ end_in source.entry.text.now source.entry.tokens.now before) }
{
    say(
        alloc,
        source.end_of(before),
        &[b"a `;` is missing after `", source.word(before), b"`"],
        &[],
        &[b"every request, assignment and `leave` ends with `;`"],
    )
}

fn say_end(
    alloc: Global,
    source: Source<'_>,
    place: usize,
    expected: &[u8],
    help: &[u8],
) -> Result<Said, AllocError>
    ensures span { IfOk result (λ said. said.span ≡ span_in source.entry.text.now source.entry.tokens.now place) }
{
    say(
        alloc,
        source.span(place),
        &[b"the text ends here, and the script does not"],
        &[b"expected ", expected],
        &[help],
    )
}

// That a brace before a place is still open, where one is.
fn open_help(alloc: Global, source: Source<'_>, place: usize) -> Result<Vec<u8>, AllocError> {
    let Some(open) = open_before(source, place) else {
        return joined(alloc, &[]);
    };
    let line = line_digits(alloc, source, open)?;
    joined(
        alloc,
        &[
            b"the `{` in line ",
            line.as_slice(),
            b" is still open: each `{` has its `}`",
        ],
    )
}

// The first of some words that is near to a word.
fn nearest(
    alloc: Global,
    word: &[u8],
    words: &[&'static [u8]],
) -> Result<Option<&'static [u8]>, AllocError> {
    for it in words {
        if is_near(alloc, word, it)? {
            return Ok(Some(it));
        }
    }
    Ok(None)
}

// The word that is meant by the one at a place.
fn meant(alloc: Global, stage: Stage, word: &[u8]) -> Result<Option<&'static [u8]>, AllocError> {
    match stage {
        Stage::Item => nearest(alloc, word, &[b"object", b"client", b"template"]),
        Stage::Block => nearest(alloc, word, &[b"separate"]),
        Stage::ObjectKind | Stage::FormalKind => {
            nearest(alloc, word, &[b"account", b"buffer", b"grid"])
        }
        _ => Ok(None),
    }
}

// The word that is meant by a name that begins a statement, by the token behind it.
fn meant_before(
    alloc: Global,
    word: &[u8],
    next: Option<&Token>,
) -> Result<Option<&'static [u8]>, AllocError> {
    match next {
        Some(Token::Number(_)) => nearest(alloc, word, &[b"repeat"]),
        Some(Token::Name(_)) => nearest(alloc, word, &[b"repeat", b"separate", b"client"]),
        Some(Token::Semicolon | Token::CloseBrace) => nearest(alloc, word, &[b"leave"]),
        Some(Token::OpenBrace | Token::If) => nearest(alloc, word, &[b"else"]),
        _ => Ok(None),
    }
}
