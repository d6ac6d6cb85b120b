//! Names of nodes, replaced by the objects that they stand for.

ghost use Rattle.std.specs.Prelude.{◌≡◌, ◌<◌, length};
ghost use Rattle.qs_program.specs.audit.Program.{binding_of};
ghost use Rattle.qs_graph.specs.audit.Bound.{bound_node, bound_nodes};

use crate::graphs::GraphNode;
use crate::node::Node;
use qs_program::Program;

impl Node {
    // Each name that it has is replaced by its object.
    fn bind(&mut self, program: &Program, client: u8)
        requires client { client < length program.now.clients }
        ensures value { self.new ≡ bound_node (binding_of program.now client) self.old }
    {
        match self {
            Node::Sync(name) => *name = program.bound(client, *name),
            Node::Query(_, call) => call.object = program.bound(client, call.object),
            Node::Call(call) => call.object = program.bound(client, call.object),
            Node::Entry | Node::Local(_) | Node::Branch(_) | Node::Exit => {}
        }
    }
}

/// Replaces each name of each place by the object that it stands for in a client's blocks.
pub(crate) fn bind_places(places: &mut [GraphNode], program: &Program, client: u8)
    requires client { client < length program.now.clients }
    ensures value { places.new ≡ bound_nodes (binding_of program.now client) places.old }
{
    for place in places.iter_mut() {
        place.node.bind(program, client);
    }
}
