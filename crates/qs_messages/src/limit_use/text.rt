// The lines of what is used of each limit.

ghost use Rattle.std.specs.Prelude.{◌≡◌, ◌++◌, IfOk, OnOk};
ghost use Rattle.qs_program.specs.audit.Program.{client_at};
ghost use Rattle.qs_messages.specs.LimitsText.{block_line, block_lines, client_line, client_lines, end_text, item_lines, limits_text as limits_text_of, template_lines, use_line, used_text};

use crate::limit_use::greatest::{OfBlock, OfClient, Use, most_of_blocks, most_of_clients};
use crate::limit_use::templates::TemplateUse;
use itoa::Buffer;
use qs_diagnosis::{put, put_all};
use qs_program::{
    MOST_BLOCKS, MOST_CLIENTS, MOST_OBJECTS, MOST_REQUESTS, MOST_STEPS, MOST_TURNS, MOST_VARIABLES,
    Program,
};
use qs_script::tree::LONGEST_TEXT;
use std::alloc::{AllocError, Global};

// Templates of a script, and formals of a template.
const MOST_TEMPLATES: u64 = 8;

const MOST_FORMALS: u64 = 8;

// `if`s and `repeat`s around a statement.
const MOST_NESTING: u64 = 8;

// Puts how much is used of a limit and how much is left, without the line's end.
#[tactic(auto, unfolding(crate::specs::LimitsText::used_text))]
fn put_used(out: &mut Vec<u8>, used: u64, most: u64, what: &[u8]) -> Result<(), AllocError>
    ensures put { OnOk result (out.new.items ≡ out.old.items ++ used_text used most what.now) }
{
    let mut first = Buffer::new();
    let mut second = Buffer::new();
    let mut third = Buffer::new();
    put_all(
        out,
        &[
            b"limits: ",
            first.format(used).as_bytes(),
            b" of ",
            second.format(most).as_bytes(),
            b" ",
            what,
            b", ",
            third.format(most.saturating_sub(used)).as_bytes(),
            b" left",
        ],
    )
}

// Puts the line of a limit of the whole script.
#[tactic(auto, unfolding(crate::specs::LimitsText::use_line))]
fn put_use(out: &mut Vec<u8>, used: u64, most: u64, what: &[u8]) -> Result<(), AllocError>
    ensures put { OnOk result (out.new.items ≡ out.old.items ++ use_line used most what.now) }
{
    put_used(out, used, most, what)?;
    put(out, b"\n")
}

// Puts the line of a limit of each client, with the name of the one that uses the most, where something is used.
#[tactic(auto, unfolding(crate::specs::LimitsText::client_line))]
fn put_client(
    out: &mut Vec<u8>,
    program: &Program,
    most_used: Use,
    most: u64,
    what: &[u8],
) -> Result<(), AllocError>
    ensures put { OnOk result (out.new.items ≡ out.old.items ++ client_line program.now most_used most what.now) }
{
    put_used(out, most_used.amount, most, what)?;
    put_name(
        out,
        most_used.amount,
        client_name(program, most_used.client),
    )
}

// Puts the line's end, with a name between brackets before it where something is used.
fn put_name(out: &mut Vec<u8>, used: u64, name: &[u8]) -> Result<(), AllocError>
    ensures put { OnOk result (out.new.items ≡ out.old.items ++ end_text used name.now) }
{
    if used == 0 {
        put(out, b"\n")
    } else {
        put_all(out, &[b" (", name, b")\n"])
    }
}

// Puts the line of a limit of each block, with the client's name and the block's number, where something is used.
#[tactic(auto, unfolding(crate::specs::LimitsText::block_line))]
fn put_block(
    out: &mut Vec<u8>,
    program: &Program,
    most_used: Use,
    most: u64,
    what: &[u8],
) -> Result<(), AllocError>
    ensures put { OnOk result (out.new.items ≡ out.old.items ++ block_line program.now most_used most what.now) }
{
    put_used(out, most_used.amount, most, what)?;
    if most_used.amount == 0 {
        return put(out, b"\n");
    }
    let mut number = Buffer::new();
    put_all(
        out,
        &[
            b" (",
            client_name(program, most_used.client),
            b" ",
            number.format(most_used.block).as_bytes(),
            b")\n",
        ],
    )
}

// A client's name; nothing past the last.
fn client_name(program: &Program, client: u8) -> &[u8]
    ensures name { result.now ≡ (client_at program.now client).name }
{
    if usize::from(client) < program.clients() {
        program.client_name(client).as_slice()
    } else {
        b""
    }
}

// The lines of the text, the objects and the clients.
fn put_items(out: &mut Vec<u8>, bytes: usize, program: &Program) -> Result<(), AllocError>
    ensures put { OnOk result (out.new.items ≡ out.old.items ++ item_lines bytes program.now) }
{
    put_use(out, bytes as u64, LONGEST_TEXT as u64, b"bytes")?;
    put_use(
        out,
        program.objects() as u64,
        MOST_OBJECTS as u64,
        b"objects",
    )?;
    put_use(
        out,
        program.clients() as u64,
        MOST_CLIENTS as u64,
        b"clients",
    )
}

// The lines of the templates.
fn put_templates(out: &mut Vec<u8>, templates: &TemplateUse) -> Result<(), AllocError>
    ensures put { OnOk result (out.new.items ≡ out.old.items ++ template_lines templates.now) }
{
    put_use(out, templates.count, MOST_TEMPLATES, b"templates")?;
    put_used(
        out,
        templates.formals,
        MOST_FORMALS,
        b"formals of a template",
    )?;
    put_name(out, templates.formals, templates.name.as_slice())
}

// The lines of the clients' limits.
fn put_clients(out: &mut Vec<u8>, program: &Program) -> Result<(), AllocError>
    ensures put { OnOk result (out.new.items ≡ out.old.items ++ client_lines program.now) }
{
    let blocks = most_of_clients(program, OfClient::Blocks);
    put_client(
        out,
        program,
        blocks,
        MOST_BLOCKS as u64,
        b"blocks of a client",
    )?;
    let variables = most_of_clients(program, OfClient::Variables);
    put_client(
        out,
        program,
        variables,
        MOST_VARIABLES as u64,
        b"variables of a client",
    )
}

// The lines of the blocks' limits.
fn put_blocks(out: &mut Vec<u8>, program: &Program) -> Result<(), AllocError>
    ensures put { OnOk result (out.new.items ≡ out.old.items ++ block_lines program.now) }
{
    let nesting = most_of_blocks(program, OfBlock::Nesting);
    put_block(out, program, nesting, MOST_NESTING, b"levels of nesting")?;
    let turns = most_of_blocks(program, OfBlock::Turns);
    put_block(out, program, turns, MOST_TURNS, b"turns of a repeat")
}

/// The text of what a script uses of each limit, and how much is left: a line each for the bytes of its text, objects,
/// clients, templates, formals of a template, blocks and variables of a client, nesting, turns of a repeat, requests
/// and steps. Where the limit is of each template, client or block, it is told of the one that uses the most, with its
/// name. An error says that an allocation failed, and nothing is left.
pub fn limits_text(
    alloc: Global,
    bytes: usize,
    templates: &TemplateUse,
    program: &Program,
) -> Result<Vec<u8>, AllocError>
    ensures text { IfOk result (λ text. text.items ≡ limits_text_of bytes templates.now program.now) }
{
    let mut out = Vec::new(alloc);
    put_items(&mut out, bytes, program)?;
    put_templates(&mut out, templates)?;
    put_clients(&mut out, program)?;
    put_blocks(&mut out, program)?;
    put_use(&mut out, program.load(), MOST_REQUESTS, b"requests")?;
    put_use(&mut out, program.weight(), MOST_STEPS, b"steps")?;
    Ok(out)
}
