// What is said of a list that names somebody whom the script does not have, or two at once.

ghost use Rattle.std.specs.Prelude.{◌<◌, length};

use crate::causes::is_near;
use crate::line_causes::line::{LEADS, Which, put_part};
use crate::line_causes::program::program_of;
use qs_check::Program;
use qs_diagnosis::{put, put_all};
use qs_line::{ListFault, Part, Who, Why, actors_of, clients_of, list_in, value_after};
use std::alloc::{AllocError, Global};

/// Puts which part of the list of the line names nobody of the script or two at once, and who is there.
pub(crate) fn put_names<'a>(
    alloc: Global,
    out: &mut Vec<u8>,
    words: &'a [&'a str],
    text: &[u8],
) -> Result<(), AllocError> {
    let Some(program) = program_of(alloc, text) else {
        return Ok(());
    };
    put_named(alloc, out, &program, words, "--pick")?;
    put_named(alloc, out, &program, words, "--order")?;
    put_named(alloc, out, &program, words, "--after")?;
    put_named_lists(alloc, out, &program, words)
}

// Whether the list after a setting has handlers too.
fn has_handlers(setting: &str) -> bool {
    setting == "--pick"
}

// Why a list names nobody.
fn fault_of(
    alloc: Global,
    program: &Program,
    with_handlers: bool,
    parts: &[Part],
) -> Option<ListFault> {
    if with_handlers {
        match actors_of(alloc, program, parts) {
            Ok(_) => None,
            Err(fault) => Some(fault),
        }
    } else {
        match clients_of(alloc, program, parts) {
            Ok(_) => None,
            Err(fault) => Some(fault),
        }
    }
}

// Puts which part of the list after a setting names nobody or two at once.
fn put_named<'a>(
    alloc: Global,
    out: &mut Vec<u8>,
    program: &Program,
    words: &'a [&'a str],
    setting: &str,
) -> Result<(), AllocError> {
    match value_after(words, setting) {
        Some(list) => put_unnamed(
            alloc,
            out,
            program,
            list,
            Which::only(setting),
            has_handlers(setting),
        ),
        None => Ok(()),
    }
}

// The same of the first of the lists after `--leads` of which there is something to say.
fn put_named_lists<'a>(
    alloc: Global,
    out: &mut Vec<u8>,
    program: &Program,
    words: &'a [&'a str],
) -> Result<(), AllocError> {
    let Some(lists) = value_after(words, LEADS) else {
        return Ok(());
    };
    for (index, list) in lists.split(':').enumerate() {
        if out.is_empty() {
            put_unnamed(alloc, out, program, list, Which::of_several(index), false)?;
        }
    }
    Ok(())
}

fn put_unnamed(
    alloc: Global,
    out: &mut Vec<u8>,
    program: &Program,
    list: &str,
    which: Which<'_>,
    with_handlers: bool,
) -> Result<(), AllocError> {
    let Some(parts) = list_in(alloc, list)? else {
        return Ok(());
    };
    let Some(ListFault::Part { place, why }) = fault_of(
        alloc,
        program,
        with_handlers,
        parts.as_slice(),
    ) else {
        return Ok(());
    };
    for (index, part) in list.split(',').enumerate() {
        if index == place {
            put_part(
                out,
                which,
                (place as u64).saturating_add(1),
                part.as_bytes(),
                words_of(why),
            )?;
        }
    }
    if let (Some(part), Why::Unknown | Why::NoClient) = (parts.get(place), why) {
        put_near(alloc, out, program, &part.who, with_handlers)?;
    }
    put_who_is_there(out, program, with_handlers)
}

// Puts the name that is probably meant: a client's that is near, or else an object's, where these may stand in the list.
fn put_near(
    alloc: Global,
    out: &mut Vec<u8>,
    program: &Program,
    who: &Who,
    with_objects: bool,
) -> Result<(), AllocError> {
    let Who::Name(name) = who else {
        return Ok(());
    };
    let before = out.len();
    put_near_client(alloc, out, program, name.as_slice())?;
    if with_objects && out.len() == before {
        put_near_object(alloc, out, program, name.as_slice())?;
    }
    Ok(())
}

fn put_near_client(
    alloc: Global,
    out: &mut Vec<u8>,
    program: &Program,
    word: &[u8],
) -> Result<(), AllocError> {
    program.keeps_sound();
    for client in 0..program.clients() as u8 {
        let name = program.client_name(client).as_slice();
        if is_near(alloc, name, word)? {
            return put_meant(out, name);
        }
    }
    Ok(())
}

fn put_near_object(
    alloc: Global,
    out: &mut Vec<u8>,
    program: &Program,
    word: &[u8],
) -> Result<(), AllocError> {
    program.keeps_sound();
    for object in 0..program.objects() as u8 {
        let name = program.object_name(object).as_slice();
        if is_near(alloc, name, word)? {
            return put_meant(out, name);
        }
    }
    Ok(())
}

fn put_meant(out: &mut Vec<u8>, name: &[u8]) -> Result<(), AllocError> {
    put_all(out, &[b"  = help: is it `@", name, b"`?\n"])
}

fn words_of(why: Why) -> &'static [u8] {
    match why {
        Why::Unknown => b"names nobody of the script\n",
        Why::Both => b"names a client and an object\n",
        Why::NoClient => b"names an object, and no client\n",
    }
}

/// Puts the names and the numbers of all clients, and of all objects where these may stand in the list.
pub(crate) fn put_who_is_there(
    out: &mut Vec<u8>,
    program: &Program,
    with_objects: bool,
) -> Result<(), AllocError> {
    program.keeps_sound();
    put(out, b"  = help: clients: ")?;
    put_clients(out, program)?;
    if with_objects {
        put(out, b"; objects: ")?;
        put_objects(out, program)?;
    }
    put(out, b"\n")
}

fn put_clients(out: &mut Vec<u8>, program: &Program) -> Result<(), AllocError> {
    program.keeps_sound();
    if program.clients() == 0 {
        return put(out, b"none");
    }
    for client in 0..program.clients() as u8 {
        put(out, if client == 0 { b"" } else { b", " })?;
        put_client(out, program, client)?;
    }
    Ok(())
}

/// Puts the name and the number of a client.
pub(crate) fn put_client(out: &mut Vec<u8>, program: &Program, client: u8) -> Result<(), AllocError>
    requires { client < length program.now.clients }
{
    put_one(out, program.client_name(client).as_slice(), b"c", client)
}

fn put_objects(out: &mut Vec<u8>, program: &Program) -> Result<(), AllocError> {
    program.keeps_sound();
    if program.objects() == 0 {
        return put(out, b"none");
    }
    for object in 0..program.objects() as u8 {
        put(out, if object == 0 { b"" } else { b", " })?;
        put_one(out, program.object_name(object).as_slice(), b"h", object)?;
    }
    Ok(())
}

// Puts a name, as a list has it, and its number.
fn put_one(out: &mut Vec<u8>, name: &[u8], letter: &[u8], number: u8) -> Result<(), AllocError> {
    let mut buffer = itoa::Buffer::new();
    let number = buffer.format(number).as_bytes();
    put_all(out, &[b"@", name, b" (", letter, number, b")"])
}
