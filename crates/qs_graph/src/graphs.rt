//! Graphs as they are kept.

ghost use Rattle.std.specs.Prelude.{◌≡◌, ◌<◌, [], false, length, slice_set};
ghost use Rattle.qs_program.specs.audit.Program.{binding_of};
ghost use Rattle.qs_graph.specs.audit.Bound.{bound_nodes};
ghost use Rattle.std.specs.List.{list_any};
ghost use Rattle.std.specs.Prelude.{◌==◌, ◌&&◌};
ghost use Rattle.qs_program.specs.audit.Kinds.{same_kind as are_alike};
ghost use Rattle.qs_graph.specs.audit.Names.{may_be_one, are_of_one_kind};
ghost use Rattle.qs_graph.specs.audit.Nodes.{to, to_either, exit, place_at, first_target, second_target, made_local};
ghost use Rattle.qs_graph.specs.Nodes.{IsSync};
ghost use Rattle.qs_graph.specs.WellFormed.{IsGraph};

use crate::binding::bind_places;
use crate::node::{Action, Named, Node};
use qs_objects::Kind;
use qs_program::{Program, same_kind};
use std::marker::Model;
use std::mem;

/// A node and where it leads: the first `count` of `targets`, and zeros behind them.
#[derive(Drop)]
pub(crate) struct GraphNode {
    pub(crate) node: Node,
    targets: [usize; 2],
    count: usize,
}

impl Model for GraphNode {
    ghost use Rattle.std.specs.Prelude.{take};
    ghost use Rattle.qs_graph.specs.audit.Nodes as nodes;
    ghost use Rattle.qs_graph.specs.Shapes.{place_code, AreEdges};

    ghost Value = { nodes.GraphNode };

    ghost coded = { place_code };

    ghost view = { λ p. record { node = p.node; edges = take p.count p.targets } };

    ghost invariant = { λ p. AreEdges p.count p.targets };
}

impl GraphNode {
    /// A node with one edge.
    pub(crate) fn to(node: Node, next: usize) -> GraphNode
        ensures value { result ≡ to node next }
    {
        GraphNode {
            node,
            targets: [next, 0],
            count: 1,
        }
    }

    /// A node with two edges, in this order.
    pub(crate) fn to_either(node: Node, first: usize, second: usize) -> GraphNode
        ensures value { result ≡ to_either node first second }
    {
        GraphNode {
            node,
            targets: [first, second],
            count: 2,
        }
    }

    /// The last node.
    pub(crate) fn exit() -> GraphNode
        ensures value { result ≡ exit }
    {
        GraphNode {
            node: Node::Exit,
            targets: [0, 0],
            count: 0,
        }
    }

    fn edges(&self) -> &[usize]
        ensures value { result.now ≡ self.now.edges }
    {
        &self.targets[..self.count]
    }

    fn first_target(&self) -> usize
        ensures value { result ≡ first_target self.now }
    {
        self.targets[0]
    }

    fn second_target(&self) -> usize
        ensures value { result ≡ second_target self.now }
    {
        self.targets[1]
    }
}

/// The control-flow graph of a block: nodes by number, each with its edges in order, the names of the block's list, and
/// whether two of these may stand for one object.
pub struct Graph {
    places: Vec<GraphNode>,
    names: Vec<Named>,
    aliases: bool,
}

impl Drop for Graph {
    fn drop(self) {
        let Graph {
            places: _,
            names: _,
            aliases: _,
        } = self;
    }
}

impl Model for Graph {
    ghost use Rattle.qs_graph.specs.audit.Nodes.{ControlGraph};
    ghost use Rattle.qs_graph.specs.WellFormed.{IsGraph};

    ghost Value = { ControlGraph };

    ghost view = { λ g. record { nodes = g.places.items; names = g.names.items; aliases = g.aliases } };

    ghost invariant = { λ g. IsGraph g.places.items };
}

impl Graph {
    /// A graph of places that are known to be one, of names, and of whether names may be aliases.
    pub(crate) fn of(places: Vec<GraphNode>, names: Vec<Named>, aliases: bool) -> Graph
        requires graph { IsGraph places.items }
        ensures value { result.nodes ≡ places.items }
        ensures names { result.names ≡ names.items }
        ensures aliases { result.aliases ≡ aliases }
    {
        Graph {
            places,
            names,
            aliases,
        }
    }

    /// The graph over objects: each name is replaced by the object that it stands for in a client's blocks. The room
    /// that the names took is left for those of another graph. Takes no memory.
    pub fn bound_in(self, program: &Program, client: u8, room: &mut Vec<Named>) -> Graph
        requires client { client < length program.now.clients }
        ensures value { result.nodes ≡ bound_nodes (binding_of program.now client) self.nodes }
        ensures no_names { result.names ≡ [] }
        ensures no_aliases { result.aliases ≡ false }
    {
        self.keeps_graph();
        program.keeps_sound();
        let Graph {
            mut places,
            names,
            aliases: _,
        } = self;
        bind_places(&mut places, program, client);
        let none = Vec::new(*names.allocator());
        *room = names;
        Graph {
            places,
            names: none,
            aliases: false,
        }
    }

    /// What holds of every graph: node 0 is Entry, edges lead to nodes, and numbers are in range. It does nothing.
    pub fn keeps_graph(&self)
        ensures graph { IsGraph self.now.nodes }
    {
        let _ = &self.places;
    }

    /// How many nodes there are; takes no memory, as no call of a graph does.
    pub fn len(&self) -> usize
        ensures value { result ≡ length self.now.nodes }
    {
        self.places.len()
    }

    /// Whether two names may stand for one object, as the formal names of a template may.
    pub fn has_aliases(&self) -> bool
        ensures value { result ≡ self.now.aliases }
    {
        self.aliases
    }

    /// Whether a call of one name may be a call of another name's object: it is the same name, or names may stand for
    /// one object and both are of one kind.
    pub fn may_be_one(&self, name: u8, other: u8) -> bool
        ensures value { result ≡ may_be_one self.now name other }
    {
        name == other || (self.aliases && are_of_one_kind(&self.names, name, other))
    }

    /// A node by its number.
    pub fn node(&self, n: usize) -> &Node
        requires in_range { n < length self.now.nodes }
        ensures value { result.now ≡ (place_at self.now.nodes n).node }
    {
        &self.places[n].node
    }

    /// The numbers of the nodes that a node leads to, in order.
    pub fn edges(&self, n: usize) -> &[usize]
        requires in_range { n < length self.now.nodes }
        ensures value { result.now ≡ (place_at self.now.nodes n).edges }
    {
        self.places[n].edges()
    }

    /// The first node that a node leads to, or 0 where it leads to none.
    pub fn first_target(&self, n: usize) -> usize
        requires in_range { n < length self.now.nodes }
        ensures value { result ≡ first_target (place_at self.now.nodes n) }
    {
        self.places[n].first_target()
    }

    /// The second node that a branch leads to, or 0 where a node leads to fewer than two.
    pub fn second_target(&self, n: usize) -> usize
        requires in_range { n < length self.now.nodes }
        ensures value { result ≡ second_target (place_at self.now.nodes n) }
    {
        self.places[n].second_target()
    }

    /// Removes a synchronisation: the node does nothing from now on, and leads where it led.
    pub fn make_local(&mut self, n: usize)
        requires in_range { n < length self.old.nodes }
        requires sync { IsSync (place_at self.old.nodes n).node }
        ensures change { self.new.nodes ≡ slice_set self.old.nodes n (made_local (place_at self.old.nodes n)) }
        ensures same_names { self.new.names ≡ self.old.names }
        ensures same_aliases { self.new.aliases ≡ self.old.aliases }
    {
        drop(mem::replace(&mut self.places[n].node, Node::Local(Action::Nothing)));
    }
}

// Whether two names stand in a list, with one kind.
fn are_of_one_kind(names: &[Named], one: u8, other: u8) -> bool
    ensures value { result ≡ are_of_one_kind names.now one other }
{
    names.iter().any(|named| named.name == one && has_of_kind(names, other, named.kind))
}

// Whether a name stands in a list, with this kind.
fn has_of_kind(names: &[Named], name: u8, kind: Kind) -> bool
    ensures value { result ≡ list_any (λ n. (n.name == name) && are_alike kind n.kind) names.now }
{
    names
        .iter()
        .any(|named| named.name == name && same_kind(kind, named.kind))
}
