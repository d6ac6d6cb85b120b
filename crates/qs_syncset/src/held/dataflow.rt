//! The dataflow pass: what is held is passed on along edges, from the nodes of a worklist, until the list is empty. Of
//! each node it keeps whether something came to it, and a byte with the handlers that no path yet shows to be missing,
//! handler h in bit h.

ghost use Rattle.std.specs.Prelude.{◌≡◌, ℕ, ◌+◌, ◌<◌, ◌≤◌, [], length, OnOk};
ghost use Rattle.qs_program.specs.audit.Limits.{most_handlers};
ghost use Rattle.qs_graph.specs.audit.Names.{may_be_one};
ghost use Rattle.qs_graph.specs.WellFormed.{IsInRange};
ghost use Rattle.qs_objects.specs.ByteSets.{in_byte};
ghost use Rattle.qs_syncset.specs.held.Dataflow.{IsPassed, IsTaken, IsWork, state, turns_left};
ghost use Rattle.qs_syncset.specs.held.Flow.{held_after, without};

use crate::held::worklist::{Turns, Worklist};
use qs_graph::{Graph, Node};
use std::alloc::AllocError;
use std::sync::ledger::Ledger;

// What is held after a call of a name, from what is held before it.
fn without_called(graph: &Graph, called: u8, set: u8) -> u8
    ensures value { (h : ℕ) → h < most_handlers → in_byte result h ≡ without (may_be_one graph.now called) (in_byte set) h }
{
    let mut left = set;
    for name in 0..8u8 {
        if graph.may_be_one(called, name) {
            left &= !(1 << name);
        }
    }
    left
}

// What is held after a node, from what is held before it.
fn after(graph: &Graph, node: &Node, set: u8) -> u8
    requires in_range { IsInRange node.now }
    ensures value { (h : ℕ) → h < most_handlers → in_byte result h ≡ held_after graph.now node.now (in_byte set) h }
{
    match node {
        Node::Sync(handler) => set | (1 << *handler),
        Node::Call(call) if !graph.has_aliases() => set & !(1 << call.object),
        Node::Call(call) => without_called(graph, call.object, set),
        Node::Entry | Node::Local(_) | Node::Branch(_) | Node::Query(_, _) | Node::Exit => set,
    }
}

// Passes on to a node what comes out of another. If that reaches the node first or takes handlers out of its set, it is
// to be visited.
fn pass_to(
    reached: &mut [bool],
    sets: &mut [u8],
    list: &mut Worklist,
    to: usize,
    out: u8,
) -> Result<(), AllocError>
    requires reached { to < length reached.old }
    requires sets { to < length sets.old }
    ensures passed { OnOk result (IsPassed (state reached.old sets.old list.old) (state reached.new sets.new list.new) to out) }
{
    let set = sets[to] & out;
    if reached[to] && set == sets[to] {
        return Ok(());
    }
    reached[to] = true;
    sets[to] = set;
    list.put(to)?;
    Ok(())
}

// Passes on along the edges of a node that was taken from the list.
fn visit(
    graph: &Graph,
    reached: &mut [bool],
    sets: &mut [u8],
    list: &mut Worklist,
    node: usize,
) -> Result<(), AllocError>
    requires taken { IsTaken graph.now (state reached.old sets.old list.old) node }
    ensures work { OnOk result (IsWork graph.now (state reached.new sets.new list.new)) }
    ensures more { OnOk result (length list.old ≤ length list.new) }
    ensures less { OnOk result (turns_left (state reached.new sets.new list.new) ≤ turns_left (state reached.old sets.old list.old)) }
{
    graph.keeps_graph();
    let out = after(graph, graph.node(node), sets[node]);
    for to in graph.edges(node) {
        pass_to(reached, sets, list, *to, out)?;
    }
    Ok(())
}

/// Visits the nodes of the list, and those that are put on it, until none is left: a turn for each.
pub(crate) fn run<L: Ledger>(
    graph: &Graph,
    reached: &mut [bool],
    sets: &mut [u8],
    list: &mut Worklist,
    turns: &mut Turns<L>,
) -> Result<(), AllocError>
    requires work { IsWork graph.now (state reached.old sets.old list.old) }
    ensures done { OnOk result (IsWork graph.now (state reached.new sets.new [])) }
    ensures counted { OnOk result (turns.old + length list.old ≤ turns.new) }
    ensures turns { turns.new ≤ turns.old + turns_left (state reached.old sets.old list.old) }
{
    'turns: while let Some(node) = list.pop(turns) {
        visit(graph, reached, sets, list, node)?;
    }
    Ok(())
}
