//! Whom a list names in a program.

ghost use Rattle.std.specs.Prelude.{◌≡◌, ◌++◌, IfErr, IfOk, Ok, OnOk, Result, replicate};
ghost use Rattle.qs_program.specs.audit.Program.{ProgramShape};
ghost use Rattle.qs_line.specs.declared.fault.Why.{Why as WhyOf};
ghost use Rattle.qs_line.specs.declared.parts.Who.{Who as WhoOf};
ghost use Rattle.qs_line.specs.audit.Named.{actor_of as actor_due, actors_of as actors_due, client_called as called_client, named_client as client_due, clients_of as clients_due, listed_from, object_called as called_object, one_of as either_of};
ghost use Rattle.qs_line.specs.Named.{IsListFault};

use crate::fault::{ListFault, Why};
use crate::parts::{Part, Who};
use qs_played::Actor;
use qs_program::Program;
use qs_script::tokens::Name;
use std::alloc::{AllocError, Global};

// The number of the client of a name.
fn client_called(program: &Program, name: &Name) -> Option<u8>
    ensures client { result ≡ called_client program.now name.now }
{
    program.keeps_sound();
    for client in 0..program.clients() as u8 {
        if *name == *program.client_name(client) {
            return Some(client);
        }
    }
    None
}

// The number of the object of a name.
fn object_called(program: &Program, name: &Name) -> Option<u8>
    ensures object { result ≡ called_object program.now name.now }
{
    program.keeps_sound();
    for object in 0..program.objects() as u8 {
        if *name == *program.object_name(object) {
            return Some(object);
        }
    }
    None
}

fn one_of(client: Option<u8>, object: Option<u8>) -> Result<Actor, Why>
    ensures one { result ≡ either_of client object }
{
    match (client, object) {
        (Some(_), Some(_)) => Err(Why::Both),
        (Some(client), None) => Ok(Actor::Client(client)),
        (None, Some(object)) => Ok(Actor::Handler(object)),
        (None, None) => Err(Why::Unknown),
    }
}

fn actor_of(program: &Program, who: &Who) -> Result<Actor, Why>
    ensures actor { result ≡ actor_due program.now who.now }
{
    match who {
        Who::Number(actor) => Ok(*actor),
        Who::Name(name) => one_of(client_called(program, name), object_called(program, name)),
    }
}

fn client_of(program: &Program, who: &Who) -> Result<u8, Why>
    ensures client { result ≡ client_due program.now who.now }
{
    match actor_of(program, who) {
        Ok(Actor::Client(client)) => Ok(client),
        Ok(Actor::Handler(_)) => Err(Why::NoClient),
        Err(why) => Err(why),
    }
}

fn add_turns<T: Copy>(out: &mut Vec<T>, one: T, count: u32) -> Result<(), AllocError>
    ensures added { OnOk result (out.new.items ≡ out.old.items ++ replicate count one) }
{
    for _turn in 0..count {
        out.push(one)?;
    }
    Ok(())
}

// Whom a part of a list may name.
trait Naming {
    type Named: Copy;

    ghost due: { ProgramShape → WhoOf → Result Self.Named WhyOf };

    fn named(program: &Program, who: &Who) -> Result<Self::Named, Why>
        ensures exact { result ≡ due program.now who.now };
}

// Any actor.
struct Actors;

impl Naming for Actors {
    type Named = Actor;

    ghost due = { actor_due };

    fn named(program: &Program, who: &Who) -> Result<Actor, Why> {
        actor_of(program, who)
    }
}

// A client.
struct Clients;

impl Naming for Clients {
    type Named = u8;

    ghost due = { client_due };

    fn named(program: &Program, who: &Who) -> Result<u8, Why> {
        client_of(program, who)
    }
}

// All whom a list names, each as often as its part says; or the first part that names nobody, and why.
fn all_of<N: Naming>(
    alloc: Global,
    program: &Program,
    parts: &[Part],
) -> Result<Vec<N::Named>, ListFault>
    ensures all { IfOk result (λ v. listed_from (N.due program.now) 0 parts.now ≡ Ok v.items) }
    ensures fault { IfErr result (IsListFault (listed_from (N.due program.now) 0 parts.now)) }
{
    let mut all = Vec::new(alloc);
    for (place, part) in parts.iter().enumerate() {
        match N::named(program, &part.who) {
            Ok(one) => add_turns(&mut all, one, part.count)?,
            Err(why) => return Err(ListFault::Part { place, why }),
        }
    }
    Ok(all)
}

/// The actors that a list names in a program, each as often as its part says; or the first part that names nobody, and
/// why.
pub fn actors_of(alloc: Global, program: &Program, parts: &[Part]) -> Result<Vec<Actor>, ListFault>
    ensures actors { IfOk result (λ v. actors_due program.now parts.now ≡ Ok v.items) }
    ensures fault { IfErr result (IsListFault (actors_due program.now parts.now)) }
{
    all_of::<Actors>(alloc, program, parts)
}

/// The clients that a list names in a program, each as often as its part says; or the first part that names none, and
/// why.
pub fn clients_of(alloc: Global, program: &Program, parts: &[Part]) -> Result<Vec<u8>, ListFault>
    ensures clients { IfOk result (λ v. clients_due program.now parts.now ≡ Ok v.items) }
    ensures fault { IfErr result (IsListFault (clients_due program.now parts.now)) }
{
    all_of::<Clients>(alloc, program, parts)
}
