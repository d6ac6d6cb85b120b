// What is said of a condition that asks for what the script does not have.

use crate::causes::{joined, part};
use qs_check::Program;
use qs_conditions::{Condition, Step, Sum, Value};
use qs_diagnosis::{Span, put, put_all};
use qs_objects::{Kind, Op};
use std::alloc::{AllocError, Global};

/// A variable or a query of a condition by its two names; of a query, how many numbers it is given.
#[derive(Clone, Copy)]
pub(crate) struct Asked<'a> {
    first: &'a [u8],
    second: &'a [u8],
    given: Option<usize>,
}

/// What is said of it: whether of its second name, and what.
#[derive(Drop)]
pub(crate) struct Unknown {
    is_second: bool,
    pub(crate) label: Vec<u8>,
    pub(crate) help: Vec<u8>,
}

/// What a sum asks for at a place.
pub(crate) fn asked_in<'a>(sum: &'a Sum, place: usize) -> Option<Asked<'a>> {
    for summand in sum.as_slice() {
        if summand.place == place {
            return match &summand.value {
                Value::Number(_) => None,
                Value::Variable(first, second) => Some(Asked {
                    first: first.as_slice(),
                    second: second.as_slice(),
                    given: None,
                }),
                Value::Reply(first, second, numbers) => Some(Asked {
                    first: first.as_slice(),
                    second: second.as_slice(),
                    given: Some(numbers.as_slice().len()),
                }),
            };
        }
    }
    None
}

/// What a condition asks for at a place.
pub(crate) fn asked_at<'a>(condition: &'a Condition, place: usize) -> Option<Asked<'a>> {
    for step in condition.as_slice() {
        if let Step::Compare(left, _, right) = step {
            let found = asked_in(left, place).or(asked_in(right, place));
            if found.is_some() {
                return found;
            }
        }
    }
    None
}

/// The bytes of a condition that are meant, where what is asked for begins at a place.
pub(crate) fn span_of(text: &[u8], place: usize, asked: Asked<'_>, unknown: &Unknown) -> Span {
    let first = Span {
        start: place,
        length: asked.first.len(),
    };
    if !unknown.is_second {
        return first;
    }
    for (start, byte) in text.iter().enumerate() {
        if start >= place.saturating_add(first.length) && byte.is_ascii_lowercase() {
            return Span {
                start,
                length: asked.second.len(),
            };
        }
    }
    first
}

// Puts a text at the end of a list.
fn put_listed(out: &mut Vec<u8>, texts: &[&[u8]]) -> Result<(), AllocError> {
    if !out.is_empty() {
        put(out, b", ")?;
    }
    put_all(out, texts)
}

// A list in words.
fn or_none(list: &[u8]) -> &[u8] {
    if list.is_empty() { b"none" } else { list }
}

// The variables of the client that has a name, where there is one.
fn variables_of(
    alloc: Global,
    program: &Program,
    name: &[u8],
) -> Result<Option<Vec<u8>>, AllocError> {
    program.keeps_sound();
    for client in 0..program.clients() as u8 {
        if program.client_name(client).as_slice() == name {
            let names = program.variables(client);
            let mut out = Vec::new(alloc);
            for number in 0..names.len() {
                if let Some(variable) = names.name(number) {
                    put_listed(&mut out, &[variable.as_slice()])?;
                }
            }
            return Ok(Some(out));
        }
    }
    Ok(None)
}

/// The kind of the object that has a name, where there is one.
pub(crate) fn kind_of(program: &Program, name: &[u8]) -> Option<Kind> {
    program.keeps_sound();
    for object in 0..program.objects() as u8 {
        if program.object_name(object).as_slice() == name {
            return Some(program.kind(object));
        }
    }
    None
}

// Whether an operation may be asked for: it is a query that changes nothing.
fn may_be_asked(op: Op) -> bool {
    op.is_query() && !matches!(op, Op::TakeFirst)
}

/// The operation of a kind that has a word.
pub(crate) fn operation_of(kind: Kind, word: &[u8]) -> Option<Op> {
    for op in kind.operations() {
        if op.word() == word {
            return Some(*op);
        }
    }
    None
}

// The queries that may be asked of objects of a kind.
fn queries_of(alloc: Global, kind: Kind) -> Result<Vec<u8>, AllocError> {
    let mut out = Vec::new(alloc);
    for op in kind.operations() {
        if may_be_asked(*op) {
            put_listed(&mut out, &[op.word(), b"(", op.parameters(), b")"])?;
        }
    }
    Ok(out)
}

// What is said of a query that is asked without parentheses, or with other numbers than it takes.
fn of_query(alloc: Global, asked: Asked<'_>, op: Op) -> Result<Unknown, AllocError> {
    let label = if asked.given.is_none() {
        joined(alloc, &[b"a query has parentheses"])?
    } else {
        joined(
            alloc,
            &[b"these are not the numbers that ", asked.second, b" takes"],
        )?
    };
    let (first, numbers) = (asked.first, part(op.parameters()));
    let help: &[&[u8]] = &[b"write `", first, b".", asked.second, b"(", numbers, b")`"];
    Ok(Unknown {
        is_second: true,
        label,
        help: joined(alloc, help)?,
    })
}

// What is said of what is no query of an object, or of one that changes it.
fn of_object(alloc: Global, asked: Asked<'_>, kind: Kind) -> Result<Unknown, AllocError> {
    let found = operation_of(kind, asked.second);
    if let Some(op) = found {
        if may_be_asked(op) {
            return of_query(alloc, asked, op);
        }
    }
    let why: &'static [u8] = if matches!(found, Some(Op::TakeFirst)) {
        b", since it changes the buffer"
    } else {
        b""
    };
    let (first, queries) = (asked.first, queries_of(alloc, kind)?);
    Ok(Unknown {
        is_second: true,
        label: joined(
            alloc,
            &[asked.second, b" can't be asked of ", first, part(why)],
        )?,
        help: joined(alloc, &[b"queries of ", first, b": ", queries.as_slice()])?,
    })
}

// What is said of a client's variable, or of what is written as a query to a client.
fn of_client(alloc: Global, asked: Asked<'_>, variables: &[u8]) -> Result<Unknown, AllocError> {
    let label = if asked.given.is_some() {
        joined(
            alloc,
            &[asked.first, b" is a client, and answers no queries"],
        )?
    } else {
        joined(alloc, &[asked.first, b" has no variable ", asked.second])?
    };
    Ok(Unknown {
        is_second: asked.given.is_none(),
        label,
        help: joined(
            alloc,
            &[b"variables of ", asked.first, b": ", or_none(variables)],
        )?,
    })
}

// What is said of a name that nobody has.
fn of_nobody(alloc: Global, program: &Program, asked: Asked<'_>) -> Result<Unknown, AllocError> {
    program.keeps_sound();
    let mut clients = Vec::new(alloc);
    for client in 0..program.clients() as u8 {
        put_listed(&mut clients, &[program.client_name(client).as_slice()])?;
    }
    let mut objects = Vec::new(alloc);
    for object in 0..program.objects() as u8 {
        put_listed(&mut objects, &[program.object_name(object).as_slice()])?;
    }
    let (clients, objects) = (or_none(clients.as_slice()), or_none(objects.as_slice()));
    Ok(Unknown {
        is_second: false,
        label: joined(
            alloc,
            &[b"no client and no object has the name ", asked.first],
        )?,
        help: joined(alloc, &[b"clients: ", clients, b"; objects: ", objects])?,
    })
}

/// What is said of what a condition asks for, where the program does not have it.
pub(crate) fn say_unknown(
    alloc: Global,
    program: &Program,
    asked: Asked<'_>,
) -> Result<Unknown, AllocError> {
    let variables = variables_of(alloc, program, asked.first)?;
    match (kind_of(program, asked.first), variables) {
        (Some(kind), None) => of_object(alloc, asked, kind),
        (Some(kind), Some(_)) if asked.given.is_some() => of_object(alloc, asked, kind),
        (_, Some(variables)) => of_client(alloc, asked, variables.as_slice()),
        (None, None) => of_nobody(alloc, program, asked),
    }
}
