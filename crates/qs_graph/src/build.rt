//! The graph of a block, made in one pass: where a statement leads is known from how many nodes there are before it.

ghost use Rattle.std.specs.Prelude.{◌≡◌, ◌<◌, ◌≤◌, ◌+◌, ◌++◌, ◌∷◌, [], length, vec_capacity, IfOk, OnOk};
ghost use Rattle.qs_program.specs.audit.Program.{blocks_of, declarations_of, own_block};
ghost use Rattle.qs_program.specs.Views.{single};
ghost use Rattle.qs_graph.specs.declared.node.Node.TheVariants.{Branch, Call, Query, Sync};
ghost use Rattle.qs_graph.specs.audit.Names.{graph_of, names_of};
ghost use Rattle.qs_graph.specs.audit.Nodes.{to, to_either};
ghost use Rattle.std.specs.List.{AllByRecursion};
ghost use Rattle.qs_graph.specs.Drawn.{IsDrawing};
ghost use Rattle.qs_graph.specs.audit.Graphs.{node_count, first_node as first_of, places_of, block_graph};

use crate::copies::copied;
use crate::counts::{nodes_of, nodes_of_stmt};
use crate::graphs::{Graph, GraphNode};
use crate::node::{Action, Choice, Named, Node};
use qs_program::{Body, Call as Request, Program, Stmt};
use std::alloc::{AllocError, Global};
use std::mem;

/// The control-flow graph of a block in its client's own text: where the client is of a template, its nodes name
/// formals.
pub fn graph(alloc: Global, program: &Program, client: u8, block: u8) -> Result<Graph, AllocError>
    requires client { client < length program.now.clients }
    requires block { block < blocks_of program.now client }
    ensures graph_of { IfOk result (λ graph. graph ≡ graph_of program.now client block) }
    ensures drawn { IfOk result (λ graph. IsDrawing graph.nodes (own_block program.now client block).body) }
{
    graph_in(alloc, program, client, block, &mut Vec::new(alloc))
}

/// The control-flow graph of a block, as `graph` makes it. Its names are put where those of another graph were, which
/// `Graph::bound_in` left there.
pub fn graph_in(
    alloc: Global,
    program: &Program,
    client: u8,
    block: u8,
    room: &mut Vec<Named>,
) -> Result<Graph, AllocError>
    requires client { client < length program.now.clients }
    requires block { block < blocks_of program.now client }
    ensures graph_of { IfOk result (λ graph. graph ≡ graph_of program.now client block) }
    ensures drawn { IfOk result (λ graph. IsDrawing graph.nodes (own_block program.now client block).body) }
{
    let room = mem::replace(room, Vec::new(alloc));
    let names = block_names(program, client, block, room)?;
    program.keeps_sound();
    match block_places(alloc, program.own_block(client, block).body()) {
        Ok(places) => Ok(Graph::of(places, names, program.is_started(client))),
        Err(error) => {
            drop(names);
            Err(error)
        }
    }
}

// The names of a block's list, with the kinds that they were declared with, put into this room.
fn block_names(
    program: &Program,
    client: u8,
    block: u8,
    room: Vec<Named>,
) -> Result<Vec<Named>, AllocError>
    requires client { client < length program.now.clients }
    requires block { block < blocks_of program.now client }
    ensures names { IfOk result (λ names. names.items ≡ names_of program.now client (own_block program.now client block)) }
{
    let reserved = reserved_by(program, client, block);
    let mut names = room;
    names.clear();
    names.reserve(reserved.len())?;
    for name in reserved {
        names.push_reserved(Named {
            name: *name,
            kind: program.declared_as(client, *name).kind,
        });
    }
    Ok(names)
}

// The names of a block's list, each of which was declared.
fn reserved_by(program: &Program, client: u8, block: u8) -> &[u8]
    requires client { client < length program.now.clients }
    requires block { block < blocks_of program.now client }
    ensures value { result.now ≡ (own_block program.now client block).reserved }
    ensures inside { AllByRecursion (λ h. h < length (declarations_of program.now client)) result.now }
{
    program.keeps_sound();
    program.own_block(client, block).reserved()
}

// All room is taken at once; where it was given, there are fewer nodes than the greatest number.
fn block_places(alloc: Global, body: &Body) -> Result<Vec<GraphNode>, AllocError>
    ensures ok { IfOk result (λ places. places.items ≡ block_graph body.now) }
{
    let count = nodes_of(body);
    let mut places = Vec::with_capacity(alloc, count.saturating_add(2))?;
    let last = count + 1;
    places.push_reserved(GraphNode::to(Node::Entry, first_node(body, 1, last)));
    add_body(alloc, &mut places, body, last, last)?;
    places.push_reserved(GraphNode::exit());
    Ok(places)
}

// The first node of statements that are numbered from `at`, where `next` comes after them.
fn first_node(body: &Body, at: usize, next: usize) -> usize
    ensures value { result ≡ first_of at next body.now }
{
    if body.as_slice().is_empty() { next } else { at }
}

// Adds a node with one edge.
fn add_to(places: &mut Vec<GraphNode>, node: Node, next: usize)
    requires room { length places.old.items < vec_capacity places.old }
    ensures added { places.new.items ≡ places.old.items ++ to node next ∷ [] }
    ensures room { vec_capacity places.new ≡ vec_capacity places.old }
{
    places.push_reserved(GraphNode::to(node, next));
}

// Adds a branch.
fn add_branch(places: &mut Vec<GraphNode>, choice: Choice, first: usize, second: usize)
    requires room { length places.old.items < vec_capacity places.old }
    ensures added { places.new.items ≡ places.old.items ++ to_either (Branch choice) first second ∷ [] }
    ensures room { vec_capacity places.new ≡ vec_capacity places.old }
{
    places.push_reserved(GraphNode::to_either(Node::Branch(choice), first, second));
}

// Adds the node of a command.
fn add_call(
    alloc: Global,
    places: &mut Vec<GraphNode>,
    call: &Request,
    next: usize,
) -> Result<(), AllocError>
    requires room { length places.old.items < vec_capacity places.old }
    ensures added { OnOk result (places.new.items ≡ places.old.items ++ to (Call call.now) next ∷ []) }
    ensures room { OnOk result (vec_capacity places.new ≡ vec_capacity places.old) }
{
    add_to(places, Node::Call(copied(alloc, call)?), next);
    Ok(())
}

// Adds the nodes of a query, which are numbered from `at`.
fn add_query(
    alloc: Global,
    places: &mut Vec<GraphNode>,
    variable: u8,
    call: &Request,
    next: usize,
) -> Result<(), AllocError>
    requires room { length places.old.items + 1 < vec_capacity places.old }
    ensures added { OnOk result (places.new.items
        ≡ places.old.items ++ to (Sync call.now.object) (length places.old.items + 1) ∷ to (Query variable call.now) next ∷ []) }
    ensures room { OnOk result (vec_capacity places.new ≡ vec_capacity places.old) }
{
    let after = places.len() + 1;
    add_to(places, Node::Sync(call.object), after);
    add_to(places, Node::Query(variable, copied(alloc, call)?), next);
    Ok(())
}

// Adds the places of statements, where `next` comes after them and a `leave` goes to `out`.
#[cycle(add)]
fn add_body(
    alloc: Global,
    places: &mut Vec<GraphNode>,
    body: &Body,
    next: usize,
    out: usize,
) -> Result<(), AllocError>
    requires room { length places.old.items + node_count body.now ≤ vec_capacity places.old }
    ensures added { OnOk result (places.new.items ≡ places.old.items ++ places_of (length places.old.items) next out body.now) }
    ensures room { OnOk result (vec_capacity places.new ≡ vec_capacity places.old) }
{
    let stmts = body.as_slice();
    for (i, stmt) in stmts.iter().enumerate() {
        let after = if i + 1 < stmts.len() {
            places.len() + nodes_of_stmt(stmt)
        } else {
            next
        };
        add_stmt(alloc, places, stmt, after, out)?;
    }
    Ok(())
}

#[cycle(add)]
fn add_stmt(
    alloc: Global,
    places: &mut Vec<GraphNode>,
    stmt: &Stmt,
    next: usize,
    out: usize,
) -> Result<(), AllocError>
    requires room { length places.old.items + node_count (single stmt.now) ≤ vec_capacity places.old }
    ensures added { OnOk result (places.new.items ≡ places.old.items ++ places_of (length places.old.items) next out (single stmt.now)) }
    ensures room { OnOk result (vec_capacity places.new ≡ vec_capacity places.old) }
{
    let at = places.len();
    match stmt {
        Stmt::Assign(variable, expr) => {
            add_to(places, Node::Local(Action::Assign(*variable, *expr)), next);
        }
        Stmt::Command(call) => add_call(alloc, places, call, next)?,
        Stmt::Query(variable, call) => add_query(alloc, places, *variable, call, next)?,
        Stmt::If {
            test,
            first,
            other,
            ..
        } => {
            let inside = first_node(first, at + 1, next);
            let otherwise = first_node(other, at + 1 + nodes_of(first), next);
            add_branch(places, Choice::If(*test), inside, otherwise);
            add_body(alloc, places, first, next, out)?;
            add_body(alloc, places, other, next, out)?;
        }
        Stmt::Repeat(count, body) => {
            let inside = first_node(body, at + 2, at + 1);
            add_to(places, Node::Local(Action::SetCount(*count)), at + 1);
            add_branch(places, Choice::Repeat, inside, next);
            add_body(alloc, places, body, at + 1, next)?;
        }
        Stmt::Leave => {
            add_to(places, Node::Local(Action::Nothing), out);
        }
    }
    Ok(())
}
