//! What the names in a condition stand for in a program.

ghost use Rattle.std.specs.Prelude.{◌≡◌, ◌<◌, IfSome, length};
ghost use Rattle.qs_questions.specs.Questions.{asked_of, client_of, object_of, only_asks, query_of, variable_of};

use qs_objects::{Kind, Op};
use qs_program::Program;
use qs_script::tokens::Name;

/// A client's variable: the client's number, and the variable's.
#[derive(Clone, Copy, Debug)]
pub struct ClientVariable {
    pub client: u8,
    pub number: usize,
}

/// A query to an object, which is named by its number.
#[derive(Clone, Copy, Debug)]
pub struct ObjectQuery {
    pub object: u8,
    pub op: Op,
}

// The number of the client that has a name.
pub(crate) fn client_of(program: &Program, name: &Name) -> Option<u8>
    ensures client { result ≡ client_of program.now name.now }
    ensures within { IfSome result (λ client. client < length program.now.clients) }
{
    program.keeps_sound();
    for client in 0..program.clients() as u8 {
        if name == program.client_name(client) {
            return Some(client);
        }
    }
    None
}

// The number of the object that has a name.
fn object_of(program: &Program, name: &Name) -> Option<u8>
    ensures object { result ≡ object_of program.now name.now }
    ensures within { IfSome result (λ object. object < length program.now.objects) }
{
    program.keeps_sound();
    for object in 0..program.objects() as u8 {
        if name == program.object_name(object) {
            return Some(object);
        }
    }
    None
}

// Whether it is a query that changes nothing.
fn only_asks(op: Op) -> bool
    ensures asks { result ≡ only_asks op }
{
    match op {
        Op::TakeFirst => false,
        _ => op.is_query(),
    }
}

// The operation of a kind that has that word, if it only asks and takes so many numbers.
fn query_of(kind: Kind, word: &Name, count: usize) -> Option<Op>
    ensures query { result ≡ query_of kind word.now count }
{
    for op in kind.operations() {
        if word.as_slice() == op.word() && only_asks(*op) && op.arity() == count {
            return Some(*op);
        }
    }
    None
}

// The variable of a client by their names: one that the client's text names. None where there is none.
pub(crate) fn variable_of(program: &Program, client: &Name, name: &Name) -> Option<ClientVariable>
    ensures variable { result ≡ variable_of program.now client.now name.now }
    ensures within { IfSome result (λ v. v.client < length program.now.clients) }
{
    let client = client_of(program, client)?;
    let number = program.variables(client).find(name)?;
    Some(ClientVariable { client, number })
}

// The query of an object by their names: one that its kind has, that changes nothing and takes so many numbers. None
// where there is none.
pub(crate) fn asked_of(
    program: &Program,
    object: &Name,
    word: &Name,
    count: usize,
) -> Option<ObjectQuery>
    ensures query { result ≡ asked_of program.now object.now word.now count }
    ensures within { IfSome result (λ q. q.object < length program.now.objects) }
{
    let object = object_of(program, object)?;
    let op = query_of(program.kind(object), word, count)?;
    Some(ObjectQuery { object, op })
}
