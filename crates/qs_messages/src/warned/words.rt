// What is said of a warning.

ghost use Rattle.std.specs.Prelude.{◌≡◌, [], IfOk};
ghost use Rattle.qs_messages.specs.Warnings.{warnings_of};

use crate::causes::{Source, is_near, placed_tokens};
use crate::warned::claims::{Asked, asked_in, some_reads};
use crate::warned::finding::warnings;
use crate::warned::places::{
    client_place, listed_place, object_place, request_place, variable_place,
};
use crate::warned::warning::Warning;
use itoa::Buffer;
use qs_diagnosis::{Diagnosis, Span, put, put_all, put_warning};
use qs_objects::Kind;
use qs_program::{Names, Program};
use qs_script::tokens::Token;
use std::alloc::{AllocError, Global};

// A text with its tokens and its program, and what was found in it.
#[derive(Drop)]
struct Telling<'a> {
    alloc: Global,
    source: Source<'a>,
    program: &'a Program,
    asked: Vec<Asked>,
    out: Vec<u8>,
    places: Vec<usize>,
}

// The name of a variable; nothing past the last.
fn word_of(names: &Names, number: u8) -> &[u8] {
    match names.name(usize::from(number)) {
        Some(name) => name.as_slice(),
        None => b"",
    }
}

// Another variable whose name is near to this one.
fn near_variable<'a>(alloc: Global, names: &'a Names, word: &[u8]) -> Result<&'a [u8], AllocError> {
    for number in 0..names.len() {
        if let Some(name) = names.name(number) {
            if is_near(alloc, name.as_slice(), word)? {
                return Ok(name.as_slice());
            }
        }
    }
    Ok(b"")
}

// A request whose object stands at a place, up to its closing parenthesis.
fn request_text(alloc: Global, source: Source<'_>, object: usize) -> Result<Vec<u8>, AllocError> {
    let mut out = Vec::new(alloc);
    for place in object..source.len() {
        put(&mut out, source.word(place))?;
        match source.token(place) {
            Some(Token::Comma) => put(&mut out, b" ")?,
            Some(Token::CloseParen) => break,
            _ => {}
        }
    }
    Ok(out)
}

// The object that a name stands for in a client's text.
fn object_named(program: &Program, client: u8, word: &[u8]) -> Option<u8> {
    if usize::from(client) >= program.clients() {
        return None;
    }
    for name in 0..=u8::MAX {
        if usize::from(name) >= program.declarations(client) {
            return None;
        }
        if program.declared_as(client, name).name.as_slice() == word {
            return Some(program.bound(client, name));
        }
    }
    None
}

// The numbers that rows, or columns, may have.
fn put_lines(out: &mut Vec<u8>, one: &[u8], several: &[u8], lines: i64) -> Result<(), AllocError> {
    let mut buffer = Buffer::new();
    let last = buffer.format(lines.saturating_sub(1)).as_bytes();
    if lines > 1 {
        put_all(out, &[several, b" 0 to ", last])
    } else {
        put_all(out, &[one, b" 0 alone"])
    }
}

/// Puts what an object takes, as help for a request that it always refuses or answers by 0.
pub(crate) fn put_taken(out: &mut Vec<u8>, name: &[u8], kind: Kind) -> Result<(), AllocError> {
    match kind {
        Kind::Account { .. } => put(out, b"an account takes amounts from 0 to 1000000000000000"),
        Kind::Buffer { .. } => Ok(()),
        Kind::Grid { rows, columns } => {
            put_all(out, &[name, b" has "])?;
            put_lines(out, b"row", b"rows", rows)?;
            put(out, b" and ")?;
            put_lines(out, b"column", b"columns", columns)
        }
    }
}

impl Telling<'_> {
    // Says it of the token at a place, unless something was said of that place: two clients of a template have one
    // text.
    fn say(&mut self, place: usize, cause: &[&[u8]], help: &[&[u8]]) -> Result<(), AllocError> {
        if self.places.contains(&place) {
            return Ok(());
        }
        self.places.push(place)?;
        self.put(self.source.span(place), cause, help)
    }

    fn put(&mut self, span: Span, cause: &[&[u8]], help: &[&[u8]]) -> Result<(), AllocError> {
        let text = self.source.text();
        if span.start > text.len() {
            return Ok(());
        }
        let mut sentence = Vec::new(self.alloc);
        put_all(&mut sentence, cause)?;
        let mut advice = Vec::new(self.alloc);
        put_all(&mut advice, help)?;
        let diagnosis = Diagnosis {
            span,
            cause: sentence.as_slice(),
            label: b"",
            help: advice.as_slice(),
        };
        put_warning(self.alloc, &mut self.out, text, &diagnosis)
    }

    fn say_empty(&mut self) -> Result<(), AllocError> {
        if self.program.clients() == 0 {
            return self.say(
                self.source.len(),
                &[b"there is no client, so nothing is done"],
                &[
                    b"`client NAME { separate OBJECT { .. } }` is one, with a block that reserves an object",
                ],
            );
        }
        self.say(
            client_place(self.source, 0),
            &[b"no client has a block, so nothing is done"],
            &[b"a block is written `separate OBJECT { .. }`"],
        )
    }

    fn say_unreserved(&mut self, object: u8) -> Result<(), AllocError> {
        let place = object_place(self.source, object);
        let word = self.source.word(place);
        self.say(place, &[b"no block reserves ", word], &[])
    }

    fn say_never_set(&mut self, client: u8, variable: u8) -> Result<(), AllocError> {
        if usize::from(client) >= self.program.clients() {
            return Ok(());
        }
        let names = self.program.variables(client);
        let word = word_of(names, variable);
        let near = near_variable(self.alloc, names, word)?;
        let place = variable_place(self.source, client, word);
        let cause: &[&[u8]] = &[word, b" is read and never set, so it is 0"];
        if near.is_empty() {
            return self.say(place, cause, &[]);
        }
        self.say(place, cause, &[b"is it `", near, b"`?"])
    }

    fn say_never_read(&mut self, client: u8, variable: u8) -> Result<(), AllocError> {
        if usize::from(client) >= self.program.clients() {
            return Ok(());
        }
        let word = word_of(self.program.variables(client), variable);
        let place = variable_place(self.source, client, word);
        if self.is_claimed(place, word) {
            return Ok(());
        }
        self.say(place, &[word, b" is assigned and never read"], &[])
    }

    // Whether a claim of the script reads the variable of a name that stands at a place, of some client with this text.
    fn is_claimed(&self, place: usize, word: &[u8]) -> bool {
        self.program.keeps_sound();
        for client in 0..self.program.clients() as u8 {
            let name = self.program.client_name(client).as_slice();
            if some_reads(self.asked.as_slice(), name, word)
                && variable_place(self.source, client, word) == place
            {
                return true;
            }
        }
        false
    }

    fn say_unused(&mut self, client: u8, block: u8, name: u8) -> Result<(), AllocError> {
        let is_there = usize::from(client) < self.program.clients()
            && usize::from(name) < self.program.declarations(client);
        if !is_there {
            return Ok(());
        }
        let word = self.program.declared_as(client, name).name.as_slice();
        let place = listed_place(self.source, client, block, word);
        self.say(
            place,
            &[
                b"this block reserves ",
                word,
                b" and makes no request on it",
            ],
            &[],
        )
    }

    // Help for a request on an object that a client's text calls by a word: what that object takes.
    fn taken(&self, client: u8, word: &[u8]) -> Result<Vec<u8>, AllocError> {
        let mut out = Vec::new(self.alloc);
        let Some(object) = object_named(self.program, client, word) else {
            return Ok(out);
        };
        let is_there = usize::from(client) < self.program.clients()
            && usize::from(object) < self.program.objects();
        if !is_there {
            return Ok(out);
        }
        let name = self.program.object_name(object).as_slice();
        let kind = self.program.kind(object);
        if self.program.is_started(client) && matches!(kind, Kind::Grid { .. }) {
            let own = self.program.client_name(client).as_slice();
            put_all(
                &mut out,
                &[b"for ", own, b", ", word, b" is ", name, b", and "],
            )?;
        }
        put_taken(&mut out, name, kind)?;
        Ok(out)
    }

    fn say_always(
        &mut self,
        client: u8,
        block: u8,
        request: usize,
        what: &[u8],
    ) -> Result<(), AllocError> {
        let place = request_place(self.source, client, block, request);
        let text = request_text(self.alloc, self.source, place)?;
        let help = self.taken(client, self.source.word(place))?;
        self.say(place, &[text.as_slice(), what], &[help.as_slice()])
    }

    fn tell(&mut self, warning: Warning) -> Result<(), AllocError> {
        match warning {
            Warning::Empty => self.say_empty(),
            Warning::Unreserved { object } => self.say_unreserved(object),
            Warning::NeverSet { client, variable } => self.say_never_set(client, variable),
            Warning::NeverRead { client, variable } => self.say_never_read(client, variable),
            Warning::Unused {
                client,
                block,
                name,
            } => self.say_unused(client, block, name),
            Warning::AlwaysRefused {
                client,
                block,
                request,
            } => self.say_always(client, block, request, b" is always refused"),
            Warning::AlwaysZero {
                client,
                block,
                request,
            } => self.say_always(client, block, request, b" is always 0"),
        }
    }
}

// What is said of warnings, one after another.
fn said_of(
    alloc: Global,
    source: Source<'_>,
    program: &Program,
    found: &[Warning],
) -> Result<Vec<u8>, AllocError> {
    let mut telling = Telling {
        alloc,
        source,
        program,
        asked: asked_in(alloc, source.text())?,
        out: Vec::new(alloc),
        places: Vec::new(alloc),
    };
    for warning in found {
        telling.tell(*warning)?;
    }
    let Telling { out, .. } = telling;
    Ok(out)
}

/// What is said of all that is warned of in the program of a text; nothing, where nothing is. An error says that memory
/// ran out.
pub fn warnings_text(alloc: Global, text: &[u8], program: &Program) -> Result<Vec<u8>, AllocError>
    ensures silent { warnings_of program.now ≡ [] → IfOk result (λ said. said.items ≡ []) }
{
    let found = warnings(alloc, program)?;
    if found.is_empty() {
        return Ok(Vec::new(alloc));
    }
    let Ok(tokens) = placed_tokens(alloc, text) else {
        return Err(AllocError);
    };
    said_of(
        alloc,
        Source::new(text, tokens.as_slice()),
        program,
        found.as_slice(),
    )
}
