// What is wrong at a token of a script, with what else it is about.

ghost use Rattle.std.specs.Prelude.{◌↔◌, IfOk, IsTrue};
ghost use Rattle.qs_messages.specs.ReadTold.{IsFormFaultOf, MayEnd};

use crate::causes::follow::may_stand;
use crate::causes::known::{Declared, Known, kind_of, place_in};
use crate::causes::operations::{Kind, operation_of};
use crate::causes::source::Source;
use crate::causes::stage::token_back;
use qs_check::fault_places::CheckFault;
use qs_objects::Op;
use qs_script::form_place;
use qs_script::tokens::Token;
use std::alloc::{AllocError, Global};

/// What there is a limit for.
#[derive(Clone, Copy)]
pub(crate) enum What {
    Object,
    Formal,
    Client,
    Template,
    Block,
    Variable,
}

/// What is wrong with a token, and what else it is about, by the places of tokens.
#[derive(Clone, Copy)]
pub(crate) enum Cause {
    /// The name is declared already, at that place.
    Twice {
        what: What,
        first: usize,
    },
    /// One more than there may be of them.
    Limit {
        what: What,
    },
    /// The number is not in its range.
    Range {
        what: &'static [u8],
    },
    /// There is no such object, or in a template no such formal.
    UnknownObject,
    /// The block's list has it already.
    ReservedTwice,
    /// The block's list does not have it.
    NotReserved,
    /// The object's kind has no such command, or no such query.
    UnknownOp {
        kind: Kind,
        asks: bool,
        object: usize,
    },
    /// It takes so many arguments, and not that many.
    Arity {
        op: Op,
        given: usize,
    },
    /// No `repeat` is around it.
    LeaveOutside,
    /// There is no such template.
    UnknownTemplate,
    /// The template has so many formals, and that many objects are given.
    Count {
        due: usize,
        given: usize,
    },
    /// The object is of one kind, and the formal at that place of another.
    OtherKind {
        kind: Kind,
        formal: Declared,
    },
}

/// A fault of form: the place of the first token with which no script goes on, one more than the last place at the
/// text's end; and whether a `;` may stand there.
#[derive(Clone, Copy)]
pub(crate) struct FormFault {
    pub(crate) place: usize,
    pub(crate) ends: bool,
}

// Whether a `;` may stand at a place of some tokens.
fn may_end(alloc: Global, tokens: Vec<Token>, place: usize) -> Result<bool, AllocError>
    ensures exact { IfOk result (λ ends. IsTrue ends ↔ MayEnd tokens.items place) }
{
    let mut tokens = tokens;
    may_stand(alloc, &mut tokens, place, Token::Semicolon)
}

/// The fault of form of some tokens, where no script has them.
pub(crate) fn form_fault(alloc: Global, tokens: Vec<Token>) -> Result<Option<FormFault>, AllocError>
    ensures exact { IfOk result (IsFormFaultOf tokens.items) }
{
    match form_place(alloc, tokens.as_slice())? {
        Some(place) => {
            let ends = may_end(alloc, tokens, place)?;
            Ok(Some(FormFault { place, ends }))
        }
        None => Ok(None),
    }
}

/// What the names before a place of a script tell.
pub(crate) fn learned(
    alloc: Global,
    source: Source<'_>,
    place: usize,
) -> Result<Known, AllocError> {
    let mut known = Known::new(alloc);
    for before in 0..place {
        match source.token(before) {
            Some(Token::Name(_)) => learn_name(&mut known, source, before)?,
            Some(Token::Separate) => known.reserved.clear(),
            Some(Token::Object | Token::Client) => known.is_template = false,
            _ => {}
        }
    }
    Ok(known)
}

// Learns what a name tells, by the token before it. In a block's list alone a name stands right after another.
fn learn_name(known: &mut Known, source: Source<'_>, place: usize) -> Result<(), AllocError> {
    match token_back(source, place, 1) {
        Some(Token::Object) => known.add_object(place, kind_after(source, place))?,
        Some(Token::Account | Token::Buffer | Token::Grid) => {
            known.add_object(place, kind_before(source, place))?
        }
        Some(Token::Client) => known.clients.push(place)?,
        Some(Token::Template) => known.add_template(place)?,
        Some(Token::Assign) if is_opened(source, place) => known.start(source, source.word(place)),
        Some(Token::OpenParen | Token::Comma) => known.give(),
        Some(Token::Separate | Token::Name(_)) => known.reserved.push(place)?,
        _ => {}
    }
    Ok(())
}

// Whether a `(` stands after a name, as after that of the template with which a client is started.
fn is_opened(source: Source<'_>, place: usize) -> bool {
    matches!(
        source.token(place.saturating_add(1)),
        Some(Token::OpenParen)
    )
}

/// What is wrong at a place, by the fault that stands there and by what the tokens before it tell.
pub(crate) fn cause_of(
    source: Source<'_>,
    known: &Known,
    place: usize,
    fault: CheckFault,
) -> Option<Cause> {
    match fault {
        CheckFault::Twice => twice(source, known, place),
        CheckFault::Limit => Some(Cause::Limit {
            what: what_at(source, place),
        }),
        CheckFault::Range => cause_of_number(source, place),
        CheckFault::UnknownObject => Some(Cause::UnknownObject),
        CheckFault::ReservedTwice => Some(Cause::ReservedTwice),
        CheckFault::NotReserved => Some(Cause::NotReserved),
        CheckFault::UnknownOp | CheckFault::Arity => operation(source, known, place),
        CheckFault::LeaveOutside => Some(Cause::LeaveOutside),
        CheckFault::UnknownTemplate => Some(Cause::UnknownTemplate),
        CheckFault::Count => count(source, known, place),
        CheckFault::OtherKind => other_kind(source, known, place),
        CheckFault::Load | CheckFault::Weight | CheckFault::Memory => None,
    }
}

// What a token declares or begins.
fn what_at(source: Source<'_>, place: usize) -> What {
    match (token_back(source, place, 1), source.token(place)) {
        (_, Some(Token::Separate)) => What::Block,
        (Some(Token::Object), _) => What::Object,
        (Some(Token::Account | Token::Buffer | Token::Grid), _) => What::Formal,
        (Some(Token::Client), _) => What::Client,
        (Some(Token::Template), _) => What::Template,
        _ => What::Variable,
    }
}

fn twice(source: Source<'_>, known: &Known, place: usize) -> Option<Cause> {
    let word = source.word(place);
    let what = what_at(source, place);
    let first = match what {
        What::Client => place_in(source, known.clients.as_slice(), word)?,
        What::Template => place_in(source, known.templates.as_slice(), word)?,
        _ => known.object(source, word)?.name,
    };
    Some(Cause::Twice { what, first })
}

// The operation of a request, or the number of its arguments.
fn operation(source: Source<'_>, known: &Known, place: usize) -> Option<Cause> {
    let object = place.saturating_sub(2);
    let asks = matches!(token_back(source, place, 3), Some(Token::Assign));
    let kind = known.object(source, source.word(object))?.kind;
    match operation_of(kind, asks, source.word(place)) {
        Some(found) => Some(Cause::Arity {
            op: found,
            given: count_to_paren(source, place.saturating_add(2)),
        }),
        None => Some(Cause::UnknownOp { kind, asks, object }),
    }
}

// The number of objects that are given to a template.
fn count(source: Source<'_>, known: &Known, place: usize) -> Option<Cause> {
    let template = known.template_of(source, source.word(place))?;
    Some(Cause::Count {
        due: known.formal_count(template),
        given: count_to_paren(source, place.saturating_add(2)),
    })
}

// An object that is given to a template.
fn other_kind(source: Source<'_>, known: &Known, place: usize) -> Option<Cause> {
    let kind = known.object(source, source.word(place))?.kind;
    let formal = known.formal(known.started, known.given)?;
    Some(Cause::OtherKind { kind, formal })
}

// The kind of an object whose name stands at a place.
fn kind_after(source: Source<'_>, place: usize) -> Kind {
    kind_of(source.token(place.saturating_add(1)))
}

// The kind of a formal whose name stands at a place.
fn kind_before(source: Source<'_>, place: usize) -> Kind {
    kind_of(source.token(place.saturating_sub(1)))
}

// How many values or names stand between commas, up to the bracket that closes them.
fn count_to_paren(source: Source<'_>, from: usize) -> usize {
    let mut count = 0usize;
    for place in from..source.len() {
        match source.token(place) {
            Some(Token::Name(_)) | Some(Token::Number(_)) => count = count.saturating_add(1),
            Some(Token::CloseParen) | None => return count,
            _ => {}
        }
    }
    count
}

// What a number has to be, by the token before it.
fn cause_of_number(source: Source<'_>, place: usize) -> Option<Cause> {
    let what: &'static [u8] = match token_back(source, place, 1)? {
        Token::Account => b"an account begins with 0 to 1000000000000000",
        Token::Buffer => b"a buffer has 1 to 1024 places",
        Token::Grid => b"a grid has 1 to 16 rows",
        Token::Number(_) => b"a grid has 1 to 16 columns",
        Token::Repeat => b"a `repeat` turns at most 1000 times",
        _ => return None,
    };
    Some(Cause::Range { what })
}
