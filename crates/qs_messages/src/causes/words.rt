// What is said of the faults of checking.

ghost use Rattle.std.specs.Prelude.{◌≡◌, IfOk};
ghost use Rattle.qs_messages.specs.Near.{is_near};

use crate::causes::finding::{Cause, What};
use crate::causes::known::{Declared, Known};
use crate::causes::operations::{Kind, call_of, operation_of};
use crate::causes::said::{Said, digits, joined, line_digits, part, say, words_at};
use crate::causes::source::Source;
use qs_objects::Op;
use qs_script::tokens::Token;
use std::alloc::{AllocError, Global};
use strsim::generic_levenshtein;

/// Whether two words differ, by at most two letters that are put in, left out or changed, and two others stay. An error
/// says that memory ran out.
pub fn is_near(alloc: Global, left: &[u8], right: &[u8]) -> Result<bool, AllocError>
    ensures near { IfOk result (λ it. it ≡ is_near left.now right.now) }
{
    let distance = generic_levenshtein(alloc, left, right)?;
    let kept = left.len().max(right.len()).saturating_sub(distance);
    Ok(distance > 0 && distance <= 2 && kept >= 2)
}

/// What is said of a place, by what is wrong there.
pub(crate) fn say_cause(
    alloc: Global,
    source: Source<'_>,
    known: &Known,
    place: usize,
    cause: Cause,
) -> Result<Said, AllocError> {
    match cause {
        Cause::Twice { what, first } => say_twice(alloc, source, place, what, first),
        Cause::Limit { what } => say_limit(alloc, source, place, what),
        Cause::Range { what } => say(alloc, source.span(place), &[what], &[], &[range_help(what)]),
        Cause::UnknownObject => say_unknown(alloc, source, known, place),
        Cause::ReservedTwice => say_reserved(alloc, source, place),
        Cause::NotReserved => say_unreserved(alloc, source, known, place),
        Cause::UnknownOp { kind, asks, object } => {
            say_operation(alloc, source, place, kind, asks, object)
        }
        Cause::Arity { op, given } => say_arity(alloc, source, place, op, given),
        Cause::LeaveOutside => say_leave(alloc, source, place),
        Cause::UnknownTemplate => say_template(alloc, source, known, place),
        Cause::Count { due, given } => say_count(alloc, source, place, due, given),
        Cause::OtherKind { kind, formal } => say_kind(alloc, source, place, kind, formal),
    }
}

fn range_help(what: &[u8]) -> &'static [u8] {
    if what.starts_with(b"a `repeat`") {
        b"put one `repeat` into another"
    } else {
        b""
    }
}

impl What {
    // Several of them, in words.
    fn several(self) -> &'static [u8] {
        match self {
            What::Object => b"objects",
            What::Formal => b"formals",
            What::Client => b"clients",
            What::Template => b"templates",
            What::Block => b"blocks",
            What::Variable => b"variables",
        }
    }

    // How many there may be, and of what.
    fn limit(self) -> &'static [u8] {
        match self {
            What::Object => b"a script has at most 8 objects",
            What::Formal => b"a template has at most 8 formals",
            What::Client => b"a script has at most 8 clients",
            What::Template => b"a script has at most 8 templates",
            What::Block => b"a client or a template has at most 64 blocks",
            What::Variable => b"a client or a template has at most 16 variables",
        }
    }

    // Which is one too many.
    fn next(self) -> &'static [u8] {
        match self {
            What::Object | What::Formal | What::Client | What::Template => b"the ninth",
            What::Block => b"the 65th",
            What::Variable => b"the 17th",
        }
    }
}

fn say_twice(
    alloc: Global,
    source: Source<'_>,
    place: usize,
    what: What,
    first: usize,
) -> Result<Said, AllocError> {
    let line = line_digits(alloc, source, first)?;
    say(
        alloc,
        source.span(place),
        &[
            b"two ",
            part(what.several()),
            b" have the name ",
            source.word(place),
        ],
        &[b"the first stands in line ", line.as_slice()],
        &[b"give one of them another name"],
    )
}

fn say_limit(
    alloc: Global,
    source: Source<'_>,
    place: usize,
    what: What,
) -> Result<Said, AllocError> {
    let cause: &[&[u8]] = &[what.limit(), b", and this is ", what.next()];
    say(alloc, source.span(place), cause, &[], &[])
}

// Whether an object of a word is declared somewhere.
fn is_declared(source: Source<'_>, word: &[u8]) -> bool {
    for place in 1..source.len() {
        if matches!(source.token(place - 1), Some(Token::Object)) && source.word(place) == word {
            return true;
        }
    }
    false
}

// The first of some declarations whose name is near to a word.
fn nearest_of<'a>(
    alloc: Global,
    source: Source<'a>,
    declared: &[Declared],
    word: &[u8],
) -> Result<Option<&'a [u8]>, AllocError> {
    for it in declared {
        if is_near(alloc, source.word(it.name), word)? {
            return Ok(Some(source.word(it.name)));
        }
    }
    Ok(None)
}

fn names_of(
    alloc: Global,
    source: Source<'_>,
    declared: &[Declared],
    template: usize,
) -> Result<Vec<u8>, AllocError> {
    let mut places = Vec::new(alloc);
    for it in declared {
        if it.template == template {
            places.push(it.name)?;
        }
    }
    words_at(alloc, source, places.as_slice(), b"none")
}

fn say_unknown(
    alloc: Global,
    source: Source<'_>,
    known: &Known,
    place: usize,
) -> Result<Said, AllocError> {
    if known.is_template {
        return say_unknown_formal(alloc, source, known, place);
    }
    let word = source.word(place);
    let names = names_of(alloc, source, known.objects.as_slice(), 0)?;
    let help = match nearest_of(alloc, source, known.objects.as_slice(), word)? {
        Some(near) => joined(alloc, &[b"is it `", near, b"`?"])?,
        None if is_declared(source, word) => {
            joined(
                alloc,
                &[b"an object is declared before it is used: move its item up"],
            )?
        }
        None => joined(
            alloc,
            &[b"declare it before, as in `object ", word, b" account 100`"],
        )?,
    };
    say(
        alloc,
        source.span(place),
        &[b"there is no object ", word, b" before this place"],
        &[b"objects so far: ", names.as_slice()],
        &[help.as_slice()],
    )
}

fn say_unknown_formal(
    alloc: Global,
    source: Source<'_>,
    known: &Known,
    place: usize,
) -> Result<Said, AllocError> {
    let names = names_of(alloc, source, known.formals.as_slice(), known.template())?;
    say(
        alloc,
        source.span(place),
        &[b"this template has no formal ", source.word(place)],
        &[b"its formals: ", names.as_slice()],
        &[b"a template's blocks name its formals, and no objects"],
    )
}

fn say_reserved(alloc: Global, source: Source<'_>, place: usize) -> Result<Said, AllocError> {
    let cause: &[&[u8]] = &[b"the block's list has ", source.word(place), b" already"];
    say(alloc, source.span(place), cause, &[], &[b"name it once"])
}

// The words at some places, with a blank after each.
fn list_of(alloc: Global, source: Source<'_>, places: &[usize]) -> Result<Vec<u8>, AllocError> {
    let mut out = Vec::new(alloc);
    for place in places {
        out.extend_from_slice(source.word(*place))?;
        out.push(b' ')?;
    }
    Ok(out)
}

fn say_unreserved(
    alloc: Global,
    source: Source<'_>,
    known: &Known,
    place: usize,
) -> Result<Said, AllocError> {
    let word = source.word(place);
    let names = words_at(alloc, source, known.reserved.as_slice(), b"none")?;
    let list = list_of(alloc, source, known.reserved.as_slice())?;
    say(
        alloc,
        source.span(place),
        &[b"this block does not reserve ", word],
        &[b"not in the block's list: ", names.as_slice()],
        &[b"write `separate ", list.as_slice(), word, b" { .. }`"],
    )
}

// The operation of a kind whose word is near to a word.
fn near_operation(
    alloc: Global,
    kind: Kind,
    asks: bool,
    word: &[u8],
) -> Result<Option<Op>, AllocError> {
    for op in kind.listed(alloc, asks)? {
        if is_near(alloc, op.word(), word)? {
            return Ok(Some(op));
        }
    }
    Ok(None)
}

fn operation_help(
    alloc: Global,
    source: Source<'_>,
    kind: Kind,
    asks: bool,
    word: &[u8],
    object: usize,
) -> Result<Vec<u8>, AllocError> {
    if let Some(found) = near_operation(alloc, kind, asks, word)? {
        return joined(alloc, &[b"is it `", found.word(), b"`?"]);
    }
    let Some(other) = operation_of(kind, !asks, word) else {
        return Ok(Vec::new(alloc));
    };
    let call = call_of(alloc, other)?;
    if asks {
        return joined(
            alloc,
            &[
                b"a command has no answer: write `",
                source.word(object),
                b".",
                call.as_slice(),
                b";`",
            ],
        );
    }
    joined(
        alloc,
        &[
            b"the answer of a query is kept in a variable: write `NAME = ",
            source.word(object),
            b".",
            call.as_slice(),
            b";`",
        ],
    )
}

fn say_operation(
    alloc: Global,
    source: Source<'_>,
    place: usize,
    kind: Kind,
    asks: bool,
    object: usize,
) -> Result<Said, AllocError> {
    let word = source.word(place);
    let what: &'static [u8] = if asks { b"query" } else { b"command" };
    let words = kind.words(alloc, asks)?;
    let help = operation_help(alloc, source, kind, asks, word, object)?;
    say(
        alloc,
        source.span(place),
        &[
            source.word(object),
            b" is ",
            part(kind.called()),
            b", which has no ",
            part(what),
            b" ",
            word,
        ],
        &[words.as_slice()],
        &[help.as_slice()],
    )
}

// So many of something, in words.
fn counted(
    alloc: Global,
    count: usize,
    one: &'static [u8],
    more: &'static [u8],
) -> Result<Vec<u8>, AllocError> {
    let number = digits(alloc, count)?;
    let what = if count == 1 { one } else { more };
    joined(alloc, &[number.as_slice(), b" ", part(what)])
}

fn say_arity(
    alloc: Global,
    source: Source<'_>,
    place: usize,
    op: Op,
    given: usize,
) -> Result<Said, AllocError> {
    let due = counted(alloc, op.arity(), b"argument", b"arguments")?;
    let call = call_of(alloc, op)?;
    let given = digits(alloc, given)?;
    let object = source.word(place.saturating_sub(2));
    say(
        alloc,
        source.span(place),
        &[
            source.word(place),
            b" takes ",
            due.as_slice(),
            b", and not ",
            given.as_slice(),
        ],
        &[],
        &[b"write `", object, b".", call.as_slice(), b"`"],
    )
}

fn say_leave(alloc: Global, source: Source<'_>, place: usize) -> Result<Said, AllocError> {
    say(
        alloc,
        source.span(place),
        &[b"no `repeat` is around this `leave`"],
        &[],
        &[b"`leave;` ends the innermost `repeat` around it; a block ends by itself"],
    )
}

// The first of some words that is near to a word.
fn nearest_at<'a>(
    alloc: Global,
    source: Source<'a>,
    places: &[usize],
    word: &[u8],
) -> Result<Option<&'a [u8]>, AllocError> {
    for place in places {
        if is_near(alloc, source.word(*place), word)? {
            return Ok(Some(source.word(*place)));
        }
    }
    Ok(None)
}

fn say_template(
    alloc: Global,
    source: Source<'_>,
    known: &Known,
    place: usize,
) -> Result<Said, AllocError> {
    let word = source.word(place);
    let templates = known.templates.as_slice();
    let names = words_at(alloc, source, templates, b"none")?;
    let help = match nearest_at(alloc, source, templates, word)? {
        Some(near) => joined(alloc, &[b"is it `", near, b"`?"])?,
        None => joined(
            alloc,
            &[b"a template is declared before the clients that are started with it"],
        )?,
    };
    say(
        alloc,
        source.span(place),
        &[b"there is no template ", word, b" before this place"],
        &[b"templates so far: ", names.as_slice()],
        &[help.as_slice()],
    )
}

fn say_count(
    alloc: Global,
    source: Source<'_>,
    place: usize,
    due: usize,
    given: usize,
) -> Result<Said, AllocError> {
    let due = counted(alloc, due, b"formal", b"formals")?;
    let given = counted(alloc, given, b"object is given", b"objects are given")?;
    say(
        alloc,
        source.span(place),
        &[
            source.word(place),
            b" has ",
            due.as_slice(),
            b", and ",
            given.as_slice(),
        ],
        &[],
        &[b"give one object for each formal, in their order"],
    )
}

fn say_kind(
    alloc: Global,
    source: Source<'_>,
    place: usize,
    kind: Kind,
    formal: Declared,
) -> Result<Said, AllocError> {
    let line = line_digits(alloc, source, formal.name)?;
    say(
        alloc,
        source.span(place),
        &[
            source.word(place),
            b" is ",
            part(kind.called()),
            b", and its formal ",
            source.word(formal.name),
            b" is ",
            part(formal.kind.called()),
        ],
        &[b"the formal stands in line ", line.as_slice()],
        &[],
    )
}
