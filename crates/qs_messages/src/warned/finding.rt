// What is warned of in a program.

ghost use Rattle.std.specs.Prelude.{◌≡◌, ◌<◌, ◌++◌, IfOk, OnOk, None, flat_map, length, slice_index_or};
ghost use Rattle.qs_program.specs.audit.Program.{blocks_of, client_at};
ghost use Rattle.qs_messages.specs.Warnings.{below, block_warnings, client_reserves, client_warnings, each_certainty_warnings, certainty_warnings, if_so, is_reserved, list_warnings, object_warnings, request_warnings, some_block_does, variable_warnings, warnings_of};

use crate::warned::certainties::{Certainty, add_certainties};
use crate::warned::doings::{Doing, body_does};
use crate::warned::warning::Warning;
use qs_program::{Block, Program};
use std::alloc::{AllocError, Global};

fn add_if(out: &mut Vec<Warning>, is_so: bool, warning: Warning) -> Result<(), AllocError>
    ensures added { OnOk result (out.new.items ≡ out.old.items ++ if_so is_so warning) }
{
    if is_so {
        out.push(warning)?;
    }
    Ok(())
}

// Whether a block of a client does something.
fn some_block_does(program: &Program, client: u8, doing: Doing) -> bool
    requires client { client < length program.now.clients }
    ensures exact { result ≡ some_block_does program.now client doing }
{
    program.keeps_sound();
    for block in 0..program.blocks_of(client) as u8 {
        if body_does(doing, program.block(client, block).body()) {
            return true;
        }
    }
    false
}

// Whether a block of a client reserves an object.
fn client_reserves(program: &Program, client: u8, object: u8) -> bool
    requires client { client < length program.now.clients }
    ensures exact { result ≡ client_reserves object (client_at program.now client) }
{
    program.keeps_sound();
    for block in 0..program.blocks_of(client) as u8 {
        if program.block(client, block).reserved().contains(&object) {
            return true;
        }
    }
    false
}

// Whether a block of some client reserves an object.
fn is_reserved(program: &Program, object: u8) -> bool
    ensures exact { result ≡ is_reserved program.now object }
{
    program.keeps_sound();
    for client in 0..program.clients() as u8 {
        if client_reserves(program, client, object) {
            return true;
        }
    }
    false
}

fn add_objects(out: &mut Vec<Warning>, program: &Program) -> Result<(), AllocError>
    ensures added { OnOk result (out.new.items ≡ out.old.items ++ flat_map (object_warnings program.now) (below (length program.now.objects))) }
{
    program.keeps_sound();
    for object in 0..program.objects() as u8 {
        let is_so = !is_reserved(program, object);
        add_if(out, is_so, Warning::Unreserved { object })?;
    }
    Ok(())
}

fn add_variable(
    out: &mut Vec<Warning>,
    program: &Program,
    client: u8,
    variable: u8,
) -> Result<(), AllocError>
    requires client { client < length program.now.clients }
    ensures added { OnOk result (out.new.items ≡ out.old.items ++ variable_warnings program.now client variable) }
{
    let assigns = some_block_does(program, client, Doing::Assigns(variable));
    let asks = some_block_does(program, client, Doing::Asks(variable));
    let reads = some_block_does(program, client, Doing::Reads(variable));
    let is_set = assigns || asks;
    add_if(
        out,
        reads && !is_set,
        Warning::NeverSet { client, variable },
    )?;
    add_if(
        out,
        assigns && !reads,
        Warning::NeverRead { client, variable },
    )
}

fn add_variables(out: &mut Vec<Warning>, program: &Program, client: u8) -> Result<(), AllocError>
    requires client { client < length program.now.clients }
    ensures added { OnOk result (out.new.items
        ≡ out.old.items ++ flat_map (variable_warnings program.now client) (below (length (client_at program.now client).variables))) }
{
    program.keeps_sound();
    for variable in 0..program.variables(client).len() as u8 {
        add_variable(out, program, client, variable)?;
    }
    Ok(())
}

// The names of a block's list.
fn add_names(
    out: &mut Vec<Warning>,
    client: u8,
    number: u8,
    block: &Block,
) -> Result<(), AllocError>
    ensures added { OnOk result (out.new.items ≡ out.old.items ++ list_warnings client number block.now) }
{
    for name in block.reserved() {
        let name = *name;
        let is_so = !body_does(Doing::Calls(name), block.body());
        let warning = Warning::Unused {
            client,
            block: number,
            name,
        };
        add_if(out, is_so, warning)?;
    }
    Ok(())
}

// The lists of a client's blocks.
fn add_lists(out: &mut Vec<Warning>, program: &Program, client: u8) -> Result<(), AllocError>
    requires client { client < length program.now.clients }
    ensures added { OnOk result (out.new.items
        ≡ out.old.items ++ flat_map (block_warnings program.now client) (below (blocks_of program.now client))) }
{
    program.keeps_sound();
    for block in 0..program.blocks_of(client) as u8 {
        add_names(out, client, block, program.own_block(client, block))?;
    }
    Ok(())
}

// A request of which it is known what becomes of it.
fn add_certainty(
    out: &mut Vec<Warning>,
    client: u8,
    block: u8,
    request: usize,
    certainty: Option<Certainty>,
) -> Result<(), AllocError>
    ensures added { OnOk result (out.new.items ≡ out.old.items ++ certainty_warnings client block request certainty) }
{
    match certainty {
        Some(Certainty::Refused) => out.push(Warning::AlwaysRefused {
            client,
            block,
            request,
        })?,
        Some(Certainty::Zero) => out.push(Warning::AlwaysZero {
            client,
            block,
            request,
        })?,
        None => {}
    }
    Ok(())
}

fn certainty_at(certainties: &[Option<Certainty>], request: usize) -> Option<Certainty>
    requires { request < length certainties.now }
    ensures value { result ≡ slice_index_or certainties.now request None }
{
    certainties[request]
}

// Requests, by what becomes of each.
fn add_each(
    out: &mut Vec<Warning>,
    client: u8,
    block: u8,
    certainties: &[Option<Certainty>],
) -> Result<(), AllocError>
    ensures added { OnOk result (out.new.items ≡ out.old.items ++ each_certainty_warnings client block certainties.now) }
{
    for request in 0..certainties.len() {
        add_certainty(
            out,
            client,
            block,
            request,
            certainty_at(certainties, request),
        )?;
    }
    Ok(())
}

// The requests of a client's block.
fn add_block(
    alloc: Global,
    out: &mut Vec<Warning>,
    program: &Program,
    client: u8,
    block: u8,
) -> Result<(), AllocError>
    requires client { client < length program.now.clients }
    requires block { block < blocks_of program.now client }
    ensures added { OnOk result (out.new.items ≡ out.old.items ++ request_warnings program.now client block) }
{
    let mut certainties = Vec::new(alloc);
    add_certainties(
        &mut certainties,
        program,
        program.block(client, block).body(),
    )?;
    add_each(out, client, block, certainties.as_slice())
}

// The requests of a client's blocks.
fn add_requests(
    alloc: Global,
    out: &mut Vec<Warning>,
    program: &Program,
    client: u8,
) -> Result<(), AllocError>
    requires client { client < length program.now.clients }
    ensures added { OnOk result (out.new.items
        ≡ out.old.items ++ flat_map (request_warnings program.now client) (below (blocks_of program.now client))) }
{
    program.keeps_sound();
    for block in 0..program.blocks_of(client) as u8 {
        add_block(alloc, out, program, client, block)?;
    }
    Ok(())
}

fn add_client(
    alloc: Global,
    out: &mut Vec<Warning>,
    program: &Program,
    client: u8,
) -> Result<(), AllocError>
    requires client { client < length program.now.clients }
    ensures added { OnOk result (out.new.items ≡ out.old.items ++ client_warnings program.now client) }
{
    add_variables(out, program, client)?;
    add_lists(out, program, client)?;
    add_requests(alloc, out, program, client)
}

fn add_clients(alloc: Global, out: &mut Vec<Warning>, program: &Program) -> Result<(), AllocError>
    ensures added { OnOk result (out.new.items ≡ out.old.items ++ flat_map (client_warnings program.now) (below (length program.now.clients))) }
{
    program.keeps_sound();
    for client in 0..program.clients() as u8 {
        add_client(alloc, out, program, client)?;
    }
    Ok(())
}

/// What is warned of in a program: that nothing is done; objects that no block reserves; variables that are read and
/// never set, or assigned and never read; names of a block's list on which it makes no request; and requests whose
/// numbers alone say that they are refused or answered by 0. An error says that memory ran out.
pub fn warnings(alloc: Global, program: &Program) -> Result<Vec<Warning>, AllocError>
    ensures exact { IfOk result (λ found. found.items ≡ warnings_of program.now) }
{
    let mut found = Vec::new(alloc);
    add_if(&mut found, program.blocks() == 0, Warning::Empty)?;
    add_objects(&mut found, program)?;
    add_clients(alloc, &mut found, program)?;
    Ok(found)
}
