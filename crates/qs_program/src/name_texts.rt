//! The names of what a program has, as texts, by number; a number past the last has none.

ghost use Rattle.std.specs.Prelude.{◌≡◌, ◌<◌, ◌≤◌, [], length, slice_index_or};
ghost use Rattle.qs_program.specs.audit.Program.{object_at, client_at, declared_as};

use crate::names::Names;
use crate::program::Program;

/// An object's name.
pub fn object_name(program: &Program, object: usize) -> &[u8]
    ensures name { result.now ≡ (object_at program.now object).name }
{
    short_name(program, object)
}

/// An object's name, which has at most 16 bytes.
#[inline(always)]
pub fn short_name(program: &Program, object: usize) -> &[u8]
    ensures name { result.now ≡ (object_at program.now object).name }
    ensures short { length result.now ≤ 16 }
{
    program.keeps_sound();
    if object < program.objects() {
        program.object_name(object as u8).as_slice()
    } else {
        b""
    }
}

/// A name of a client's own text: of a formal of its template, or of an object.
pub fn declared_name(program: &Program, client: u8, name: u8) -> &[u8]
    requires client { client < length program.now.clients }
    ensures name { result.now ≡ (declared_as program.now client name).name }
{
    if usize::from(name) < program.declarations(client) {
        program.declared_as(client, name).name.as_slice()
    } else {
        b""
    }
}

/// A client's name.
pub fn client_name(program: &Program, client: u8) -> &[u8]
    ensures name { result.now ≡ (client_at program.now client).name }
{
    if usize::from(client) < program.clients() {
        program.client_name(client).as_slice()
    } else {
        b""
    }
}

/// A variable's name, by its number among a client's variables.
pub fn variable_name(variables: &Names, number: usize) -> &[u8]
    ensures name { result.now ≡ slice_index_or variables.now number [] }
{
    match variables.name(number) {
        Some(name) => name.as_slice(),
        None => b"",
    }
}
