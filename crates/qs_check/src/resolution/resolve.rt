//! From names to numbers.

ghost use Rattle.std.specs.Prelude.{◌≡◌, ◌≤◌, ◌<◌, ◌+◌, IfOk, OnOk, length, map, true, false, None, pos, slice_index_or};
ghost use Rattle.std.specs.List.{AllByRecursion};
ghost use Rattle.qs_script.specs.tree.Form.{levels_of, IsFormed, HasForm};
ghost use Rattle.qs_script.specs.tree.Views.{single as single_text};
ghost use Rattle.qs_script.specs.audit.tree.Limits.{most_levels};
ghost use Rattle.qs_program.specs.audit.Limits.{most_objects, most_variables};
ghost use Rattle.qs_program.specs.audit.Numbering.{found_at};
ghost use Rattle.qs_check.specs.audit.resolution.Resolve.{atom_of, expr_of, test_of, call_of, body_of, block_shape, clients_of, objects_of, templates_in};
ghost use Rattle.qs_check.specs.resolution.Resolve.{AreFaultless, variable_lists};
ghost use Rattle.qs_program.specs.Sound.{levels_of as nested_in};
ghost use Rattle.qs_program.specs.audit.Statements.{end, command, query, assign, choose, again, leave};
ghost use Rattle.qs_program.specs.Statements.{join_statements};

use crate::fault_places::{find_op, kind_at, kind_value};
use crate::resolution::start::resolve_started;
use qs_objects::{Kind, Op};
use qs_program::{Atom, Atoms, Block, Body, Call, Client, Declared, Expr, Names, Stmt, Test};
use qs_script::tree::{ClientItem, Item, Name, Number};
use std::alloc::{AllocError, Global};
use std::collections::VecDeque;

/// What names are numbered by: all objects of a script, with the kind of each, and the variables of a client.
#[derive(Drop)]
pub(crate) struct Numbering<'a> {
    pub objects: &'a Names,
    pub kinds: &'a [Kind],
    pub variables: &'a Names,
    ghost few_objects: { length objects.now ≤ most_objects },
    ghost few_variables: { length variables.now ≤ most_variables },
}

/// The objects of a script, in text order.
pub fn resolve_objects(alloc: Global, items: &[Item]) -> Result<Vec<Declared>, AllocError>
    ensures objects { IfOk result (λ v. v.items ≡ objects_of items.now) }
{
    let mut objects = Vec::new(alloc);
    for item in items {
        if let Item::Object(object) = item {
            objects.push(Declared {
                name: object.name.copied(),
                kind: kind_value(&object.kind),
            })?;
        }
    }
    Ok(objects)
}

/// The clients of a script in text order, by the names and kinds of all its objects and the lists of its clients'
/// variables.
pub fn resolve_clients(
    alloc: Global,
    objects: &Names,
    kinds: &[Kind],
    variables: &mut VecDeque<Names>,
    items: &[Item],
) -> Result<Vec<Client>, AllocError>
    requires form { HasForm items.now }
    requires texts { AreFaultless (templates_in items.now) }
    requires objects { length objects.now ≤ most_objects }
    requires variables { variables.old.items ≡ variable_lists items.now }
    requires limit { AllByRecursion (λ v. length v ≤ most_variables) variables.old.items }
    ensures clients { IfOk result (λ v. v.items ≡ clients_of (templates_in items.now) objects.now kinds.now items.now) }
{
    let mut clients = Vec::new(alloc);
    for item in items {
        match item {
            Item::Client(client) => {
                let Some(names) = variables.pop_front() else {
                    unreachable!()
                };
                clients.push(resolve_client(alloc, objects, kinds, names, client)?)?;
            }
            Item::Started(started) => {
                clients.push(resolve_started(alloc, objects, items, started)?)?;
            }
            Item::Object(_) | Item::Template(_) => {}
        }
    }
    Ok(clients)
}

fn resolve_client(
    alloc: Global,
    objects: &Names,
    kinds: &[Kind],
    variables: Names,
    item: &ClientItem,
) -> Result<Client, AllocError>
    requires formed { AllByRecursion IsFormed item.now.blocks }
    requires objects { length objects.now ≤ most_objects }
    requires variables { length variables ≤ most_variables }
    ensures name { IfOk result (λ c. c.name ≡ item.now.name) }
    ensures variables { IfOk result (λ c. c.variables ≡ variables) }
    ensures blocks { IfOk result (λ c. c.blocks ≡ map (block_shape objects.now kinds.now variables) item.now.blocks) }
    ensures start { IfOk result (λ c. c.start ≡ None) }
{
    let numbering = Numbering {
        objects,
        kinds,
        variables: &variables,
    };
    match resolve_blocks(alloc, &numbering, item.blocks.as_slice()) {
        Ok(blocks) => Ok(Client::new(item.name.copied(), variables, blocks)),
        Err(fault) => {
            drop(variables);
            Err(fault)
        }
    }
}

pub(crate) fn resolve_blocks(
    alloc: Global,
    numbering: &Numbering<'_>,
    blocks: &[qs_script::tree::Block],
) -> Result<Vec<Block>, AllocError>
    requires formed { AllByRecursion IsFormed blocks.now }
    ensures blocks { IfOk result
        (λ v. v.items ≡ map
        (block_shape numbering.now.objects.now numbering.now.kinds.now numbering.now.variables.now) blocks.now) }
{
    let mut all = Vec::with_capacity(alloc, blocks.len())?;
    for block in blocks {
        all.push(resolve_block(alloc, numbering, block)?)?;
    }
    Ok(all)
}

fn resolve_block(
    alloc: Global,
    numbering: &Numbering<'_>,
    block: &qs_script::tree::Block,
) -> Result<Block, AllocError>
    requires levels { levels_of block.now.body ≤ most_levels }
    ensures block { IfOk result
        (λ b. b ≡ block_shape numbering.now.objects.now numbering.now.kinds.now numbering.now.variables.now block.now) }
{
    let reserved = resolve_list(alloc, numbering.objects, block.reserved.as_slice())?;
    let body = resolve_body(alloc, numbering, &block.body)?;
    Ok(Block::new(reserved, body))
}

pub(crate) fn resolve_list(
    alloc: Global,
    objects: &Names,
    names: &[Name],
) -> Result<Vec<u8>, AllocError>
    requires objects { length objects.now ≤ most_objects }
    ensures list { IfOk result (λ v. v.items ≡ map (found_at objects.now) names.now) }
{
    let mut reserved = Vec::with_capacity(alloc, names.len())?;
    for name in names {
        reserved.push(objects.number_of(name) as u8)?;
    }
    Ok(reserved)
}

// The statements with each name replaced by its number.
#[cycle(resolve)]
fn resolve_body(
    alloc: Global,
    numbering: &Numbering<'_>,
    body: &qs_script::tree::Body,
) -> Result<Body, AllocError>
    requires levels { levels_of body.now ≤ most_levels }
    ensures body { IfOk result
        (λ code. code
        ≡ body_of numbering.now.objects.now numbering.now.kinds.now numbering.now.variables.now body.now) }
{
    let stmts = body.as_slice();
    let mut code = Body::with_capacity(alloc, stmts.len())?;
    for stmt in stmts {
        resolve_stmt(alloc, numbering, stmt, &mut code)?;
    }
    Ok(code)
}

// Adds a statement. What a statement with bodies needs stands in a function of its own, so that no memory is cleared
// for the others.
#[cycle(resolve)]
#[inline(always)]
fn resolve_stmt(
    alloc: Global,
    numbering: &Numbering<'_>,
    stmt: &qs_script::tree::Stmt,
    code: &mut Body,
) -> Result<(), AllocError>
    requires levels { levels_of (single_text stmt.now) ≤ most_levels }
    ensures added { OnOk result (code.new ≡ join_statements code.old
        (body_of numbering.now.objects.now numbering.now.kinds.now numbering.now.variables.now
        (single_text stmt.now))) }
{
    match stmt {
        qs_script::tree::Stmt::Command(call) => { add_command(alloc, numbering, call, code) }
        qs_script::tree::Stmt::Query(variable, call) => {
            add_query(alloc, numbering, variable, call, code)
        }
        qs_script::tree::Stmt::Assign(variable, expr) => add_assign(
            numbering.variables,
            variable,
            expr,
            code,
        ),
        qs_script::tree::Stmt::If(test, first) => { add_if(alloc, numbering, test, first, code) }
        qs_script::tree::Stmt::IfElse(test, first, other) => {
            add_if_else(alloc, numbering, test, first, other, code)
        }
        qs_script::tree::Stmt::Repeat(count, body) => {
            add_repeat(alloc, numbering, *count, body, code)
        }
        qs_script::tree::Stmt::Leave => add_leave(code),
    }
}

#[cycle(resolve)]
#[inline(never)]
fn add_if(
    alloc: Global,
    numbering: &Numbering<'_>,
    test: &qs_script::tree::Test,
    first: &qs_script::tree::Body,
    code: &mut Body,
) -> Result<(), AllocError>
    requires levels { levels_of first.now + 1 ≤ most_levels }
    ensures added { OnOk result (code.new ≡ join_statements code.old
        (choose (test_of numbering.now.variables.now test.now) false
        (body_of numbering.now.objects.now numbering.now.kinds.now numbering.now.variables.now first.now) end end)) }
{
    let first = resolve_body(alloc, numbering, first)?;
    add_choice(
        numbering.variables,
        test,
        false,
        first,
        Body::new(alloc),
        code,
    )
}

#[cycle(resolve)]
#[inline(never)]
fn add_if_else(
    alloc: Global,
    numbering: &Numbering<'_>,
    test: &qs_script::tree::Test,
    first: &qs_script::tree::Body,
    other: &qs_script::tree::Body,
    code: &mut Body,
) -> Result<(), AllocError>
    requires first_levels { levels_of first.now + 1 ≤ most_levels }
    requires other_levels { levels_of other.now + 1 ≤ most_levels }
    ensures added { OnOk result (code.new ≡ join_statements code.old
        (choose (test_of numbering.now.variables.now test.now) true
        (body_of numbering.now.objects.now numbering.now.kinds.now numbering.now.variables.now first.now)
        (body_of numbering.now.objects.now numbering.now.kinds.now numbering.now.variables.now other.now) end)) }
{
    let first = resolve_body(alloc, numbering, first)?;
    let other = resolve_body(alloc, numbering, other)?;
    add_choice(numbering.variables, test, true, first, other, code)
}

#[cycle(resolve)]
#[inline(never)]
fn add_repeat(
    alloc: Global,
    numbering: &Numbering<'_>,
    count: Number,
    body: &qs_script::tree::Body,
    code: &mut Body,
) -> Result<(), AllocError>
    requires levels { levels_of body.now + 1 ≤ most_levels }
    ensures added { OnOk result (code.new ≡ join_statements code.old
        (again count
        (body_of numbering.now.objects.now numbering.now.kinds.now numbering.now.variables.now body.now) end)) }
{
    let body = resolve_body(alloc, numbering, body)?;
    add_turns(count.count(), body, code)
}

#[inline(always)]
fn add_command(
    alloc: Global,
    numbering: &Numbering<'_>,
    call: &qs_script::tree::Call,
    code: &mut Body,
) -> Result<(), AllocError>
    ensures added { OnOk result (code.new ≡ join_statements code.old
        (command
        (call_of numbering.now.objects.now numbering.now.kinds.now numbering.now.variables.now false call.now) end)) }
{
    if call.args.as_slice().len() > 1 {
        return add_long_command(alloc, numbering, call, code);
    }
    let call = resolve_short(alloc, numbering, false, call);
    code.push(Stmt::Command(call))
}

// Adds a command with any number of arguments.
#[inline(never)]
fn add_long_command(
    alloc: Global,
    numbering: &Numbering<'_>,
    call: &qs_script::tree::Call,
    code: &mut Body,
) -> Result<(), AllocError>
    ensures added { OnOk result (code.new ≡ join_statements code.old
        (command
        (call_of numbering.now.objects.now numbering.now.kinds.now numbering.now.variables.now false call.now) end)) }
{
    let call = resolve_call(alloc, numbering, false, call)?;
    code.push(Stmt::Command(call))
}

#[inline(always)]
fn add_query(
    alloc: Global,
    numbering: &Numbering<'_>,
    variable: &Name,
    call: &qs_script::tree::Call,
    code: &mut Body,
) -> Result<(), AllocError>
    ensures added { OnOk result (code.new ≡ join_statements code.old
        (query (found_at numbering.now.variables.now variable.now)
        (call_of numbering.now.objects.now numbering.now.kinds.now numbering.now.variables.now true call.now) end)) }
{
    if call.args.as_slice().len() > 1 {
        return add_long_query(alloc, numbering, variable, call, code);
    }
    let call = resolve_short(alloc, numbering, true, call);
    code.push(Stmt::Query(numbering.variables.number_of(variable) as u8, call))
}

// Adds a query with any number of arguments.
#[inline(never)]
fn add_long_query(
    alloc: Global,
    numbering: &Numbering<'_>,
    variable: &Name,
    call: &qs_script::tree::Call,
    code: &mut Body,
) -> Result<(), AllocError>
    ensures added { OnOk result (code.new ≡ join_statements code.old
        (query (found_at numbering.now.variables.now variable.now)
        (call_of numbering.now.objects.now numbering.now.kinds.now numbering.now.variables.now true call.now) end)) }
{
    let call = resolve_call(alloc, numbering, true, call)?;
    code.push(Stmt::Query(numbering.variables.number_of(variable) as u8, call))
}

#[inline(always)]
fn add_assign(
    variables: &Names,
    variable: &Name,
    expr: &qs_script::tree::Expr,
    code: &mut Body,
) -> Result<(), AllocError>
    requires variables { length variables.now ≤ most_variables }
    ensures added { OnOk result (code.new ≡ join_statements code.old (assign (found_at variables.now variable.now) (expr_of variables.now expr.now) end)) }
{
    code.push(Stmt::Assign(
        variables.number_of(variable) as u8,
        resolve_expr(variables, expr),
    ))
}

#[inline(always)]
fn add_choice(
    variables: &Names,
    test: &qs_script::tree::Test,
    has_else: bool,
    first: Body,
    other: Body,
    code: &mut Body,
) -> Result<(), AllocError>
    requires variables { length variables.now ≤ most_variables }
    requires levels { nested_in (choose (test_of variables.now test.now) has_else first other end) ≤ most_levels }
    ensures added { OnOk result (code.new ≡ join_statements code.old (choose (test_of variables.now test.now) has_else first other end)) }
{
    code.push(Stmt::If {
        test: resolve_test(variables, test),
        has_else,
        first,
        other,
    })
}

#[inline(always)]
fn add_turns(count: u64, body: Body, code: &mut Body) -> Result<(), AllocError>
    requires levels { nested_in (again count body end) ≤ most_levels }
    ensures added { OnOk result (code.new ≡ join_statements code.old (again count body end)) }
{
    code.push(Stmt::Repeat(count, body))
}

#[inline(never)]
fn add_leave(code: &mut Body) -> Result<(), AllocError>
    ensures added { OnOk result (code.new ≡ join_statements code.old (leave end)) }
{
    code.push(Stmt::Leave)
}

// A request of at most one argument; takes no memory.
#[inline(always)]
fn resolve_short(
    alloc: Global,
    numbering: &Numbering<'_>,
    asks: bool,
    call: &qs_script::tree::Call,
) -> Call
    requires short { length call.now.args ≤ 1 }
    ensures call { result
        ≡ call_of numbering.now.objects.now numbering.now.kinds.now numbering.now.variables.now asks call.now }
{
    let number = numbering.objects.number_of(&call.object);
    let op = find_op(asks, kind_at(numbering.kinds, number), &call.op).unwrap_or(Op::Refused);
    Call {
        object: number as u8,
        op,
        args: resolve_one(alloc, numbering.variables, call.args.as_slice()),
    }
}

// At most one argument.
#[inline(always)]
fn resolve_one(alloc: Global, variables: &Names, atoms: &[qs_script::tree::Atom]) -> Atoms
    requires variables { length variables.now ≤ most_variables }
    requires short { length atoms.now ≤ 1 }
    ensures atoms { result ≡ map (atom_of variables.now) atoms.now }
{
    let first = resolve_at(variables, atoms, 0);
    Atoms::few(
        alloc,
        [first, Atom::Number(0), Atom::Number(0)],
        atoms.len(),
    )
}

#[inline(always)]
fn resolve_call(
    alloc: Global,
    numbering: &Numbering<'_>,
    asks: bool,
    call: &qs_script::tree::Call,
) -> Result<Call, AllocError>
    ensures call { IfOk result
        (λ c. c ≡ call_of numbering.now.objects.now numbering.now.kinds.now numbering.now.variables.now asks call.now) }
{
    let number = numbering.objects.number_of(&call.object);
    let op = find_op(asks, kind_at(numbering.kinds, number), &call.op).unwrap_or(Op::Refused);
    let args = resolve_atoms(alloc, numbering.variables, call.args.as_slice())?;
    Ok(Call {
        object: number as u8,
        op,
        args,
    })
}

#[inline(always)]
fn resolve_atoms(
    alloc: Global,
    variables: &Names,
    atoms: &[qs_script::tree::Atom],
) -> Result<Atoms, AllocError>
    requires variables { length variables.now ≤ most_variables }
    ensures atoms { IfOk result (λ v. v ≡ map (atom_of variables.now) atoms.now) }
{
    if atoms.len() > 3 {
        return resolve_many(alloc, variables, atoms);
    }
    let few = [
        resolve_at(variables, atoms, 0),
        resolve_at(variables, atoms, 1),
        resolve_at(variables, atoms, 2),
    ];
    Ok(Atoms::few(alloc, few, atoms.len()))
}

#[inline(never)]
fn resolve_many(
    alloc: Global,
    variables: &Names,
    atoms: &[qs_script::tree::Atom],
) -> Result<Atoms, AllocError>
    requires variables { length variables.now ≤ most_variables }
    ensures atoms { IfOk result (λ v. v ≡ map (atom_of variables.now) atoms.now) }
{
    let mut args = Atoms::new(alloc);
    for atom in atoms {
        args.push(resolve_atom(variables, atom))?;
    }
    Ok(args)
}

// The argument at a place, or the number 0 where there is none.
#[inline(always)]
fn resolve_at(variables: &Names, atoms: &[qs_script::tree::Atom], place: usize) -> Atom
    requires variables { length variables.now ≤ most_variables }
    ensures atom { result ≡ slice_index_or (map (atom_of variables.now) atoms.now) place (Atom.Number (pos 0)) }
{
    if place < atoms.len() {
        resolve_atom(variables, &atoms[place])
    } else {
        Atom::Number(0)
    }
}

fn resolve_atom(variables: &Names, atom: &qs_script::tree::Atom) -> Atom
    requires variables { length variables.now ≤ most_variables }
    ensures atom { result ≡ atom_of variables.now atom.now }
{
    match atom {
        qs_script::tree::Atom::Variable(name) => Atom::Variable(variables.number_of(name) as u8),
        qs_script::tree::Atom::Number(number) => Atom::Number(*number),
    }
}

fn resolve_expr(variables: &Names, expr: &qs_script::tree::Expr) -> Expr
    requires variables { length variables.now ≤ most_variables }
    ensures expr { result ≡ expr_of variables.now expr.now }
{
    match expr {
        qs_script::tree::Expr::Plain(atom) => Expr::Plain(resolve_atom(variables, atom)),
        qs_script::tree::Expr::Binary(left, operator, right) => Expr::Binary(
            resolve_atom(variables, left),
            *operator,
            resolve_atom(variables, right),
        ),
    }
}

fn resolve_test(variables: &Names, test: &qs_script::tree::Test) -> Test
    requires variables { length variables.now ≤ most_variables }
    ensures test { result ≡ test_of variables.now test.now }
{
    Test {
        left: resolve_atom(variables, &test.left),
        relation: test.relation,
        right: resolve_atom(variables, &test.right),
    }
}
