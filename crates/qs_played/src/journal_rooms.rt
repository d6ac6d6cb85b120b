//! Objects as declared, each with room for its journal.

ghost use Rattle.std.specs.Prelude.{◌≡◌, ◌<◌, ◌≤◌, IfOk, length};
ghost use Rattle.qs_played.specs.audit.JournalRooms.{fresh_held, room_in, room_of};

use qs_objects::Held;
use qs_program::Program;
use std::alloc::{AllocError, Global};

/// An object as declared, by its number, with room in its journal for all requests that there can be on it: the sum of
/// its loads over all blocks. All the memory that the object and its journal will need is taken here; an allocation
/// that fails leaves nothing.
pub fn declared_held(alloc: Global, program: &Program, object: u8) -> Result<Held, AllocError>
    requires { object < length program.now.objects }
    ensures held { IfOk result (λ held. held ≡ fresh_held program.now object) }
{
    let state = program.declared_object(alloc, object)?;
    Held::new(alloc, state, journal_room(program, object))
}

/// How many requests there can be on an object, over all blocks.
fn journal_room(program: &Program, object: u8) -> usize
    ensures room { result ≡ room_of program.now object }
{
    program.keeps_sound();
    let mut room = 0;
    for client in 0..program.clients() as u8 {
        room += client_room(program, client, object);
    }
    room
}

/// How many requests there can be on an object, over a client's blocks.
fn client_room(program: &Program, client: u8, object: u8) -> usize
    requires { client < length program.now.clients }
    ensures room { result ≡ room_in program.now client object }
    ensures limit { result ≤ 6400000 }
{
    program.keeps_sound();
    let mut room = 0;
    for block in 0..program.blocks_of(client) as u8 {
        room += program.load_of(client, block, object) as usize;
    }
    room
}
