// What is said of a list of clients that names no order of the script.

ghost use Rattle.std.specs.Prelude.{◌<◌, length};

use crate::line_causes::line::{LEADS, Which, put_part};
use crate::line_causes::lists::{put_client, put_who_is_there};
use crate::line_causes::program::program_of;
use qs_check::Program;
use qs_diagnosis::{put, put_all};
use qs_line::{clients_of, list_in, value_after};
use qs_program::MOST_CLIENTS;
use std::alloc::{AllocError, Global};

/// Puts which part of the list after a setting names no block of the script, and what is there.
pub fn put_order<'a>(
    alloc: Global,
    out: &mut Vec<u8>,
    words: &'a [&'a str],
    text: &[u8],
    setting: &str,
) -> Result<(), AllocError> {
    let Some(list) = value_after(words, setting) else {
        return Ok(());
    };
    match program_of(alloc, text) {
        Some(program) => put_surplus(alloc, out, &program, Which::only(setting), list),
        None => Ok(()),
    }
}

// The same of the first of the lists after `--leads` of which there is something to say.
fn put_orders<'a>(
    alloc: Global,
    out: &mut Vec<u8>,
    words: &'a [&'a str],
    text: &[u8],
) -> Result<(), AllocError> {
    let (Some(lists), Some(program)) = (value_after(words, LEADS), program_of(alloc, text)) else {
        return Ok(());
    };
    for (index, list) in lists.split(':').enumerate() {
        if out.is_empty() {
            put_surplus(alloc, out, &program, Which::of_several(index), list)?;
        }
    }
    Ok(())
}

/// Puts which part of a list of blocks that were run before names no block of the script; or else, where fronts are
/// asked for, that they have more blocks than are left, and how many the script has.
pub fn put_front<'a>(
    alloc: Global,
    out: &mut Vec<u8>,
    words: &'a [&'a str],
    text: &[u8],
) -> Result<(), AllocError> {
    put_order(alloc, out, words, text, "--after")?;
    put_orders(alloc, out, words, text)?;
    if !out.is_empty() || words.get(1) != Some(&"fronts") {
        return Ok(());
    }
    match program_of(alloc, text) {
        Some(program) => put_long_front(out, &program),
        None => Ok(()),
    }
}

fn put_long_front(out: &mut Vec<u8>, program: &Program) -> Result<(), AllocError> {
    program.keeps_sound();
    let mut blocks = 0usize;
    for client in 0..program.clients() as u8 {
        blocks = blocks.saturating_add(program.blocks_of(client));
    }
    let mut buffer = itoa::Buffer::new();
    put_all(
        out,
        &[
            b"error: '<K>' asks for more blocks than are left\n  = help: blocks of the script: ",
            buffer.format(blocks).as_bytes(),
            b"\n",
        ],
    )
}

// Puts the first part that is no client, or that names one more block than its client has.
fn put_surplus(
    alloc: Global,
    out: &mut Vec<u8>,
    program: &Program,
    which: Which<'_>,
    list: &str,
) -> Result<(), AllocError> {
    let Some(parts) = list_in(alloc, list)? else {
        return Ok(());
    };
    let Ok(clients) = clients_of(alloc, program, parts.as_slice()) else {
        return Ok(());
    };
    let mut begun = [0usize; MOST_CLIENTS];
    let mut named = 0usize;
    for (index, text) in list.split(',').enumerate() {
        let place = (index as u64).saturating_add(1);
        let (Some(part), Some(client)) = (parts.get(index), clients.get(named)) else {
            return Ok(());
        };
        if usize::from(*client) >= program.clients() {
            put_part(out, which, place, text.as_bytes(), b"names no client\n")?;
            return put_who_is_there(out, program, false);
        }
        let Some(blocks) = begun.get_mut(usize::from(*client)) else {
            return Ok(());
        };
        *blocks = (*blocks).saturating_add(part.count as usize);
        if *blocks > program.blocks_of(*client) {
            let surplus = *blocks - program.blocks_of(*client);
            put_part(out, which, place, text.as_bytes(), b"names ")?;
            put_too_many(out, surplus)?;
            return put_blocks(out, program, *client);
        }
        named = named.saturating_add(part.count as usize);
    }
    Ok(())
}

fn put_too_many(out: &mut Vec<u8>, surplus: usize) -> Result<(), AllocError> {
    if surplus == 1 {
        return put(out, b"one block too many\n");
    }
    let mut buffer = itoa::Buffer::new();
    put_all(
        out,
        &[buffer.format(surplus).as_bytes(), b" blocks too many\n"],
    )
}

fn put_blocks(out: &mut Vec<u8>, program: &Program, client: u8) -> Result<(), AllocError>
    requires { client < length program.now.clients }
{
    put(out, b"  = help: blocks of ")?;
    put_client(out, program, client)?;
    let mut buffer = itoa::Buffer::new();
    let blocks = buffer.format(program.blocks_of(client)).as_bytes();
    put_all(out, &[b": ", blocks, b"\n"])
}
