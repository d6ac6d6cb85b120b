//! Static coalescing of synchronisations.

ghost use Rattle.std.specs.Prelude.{◌≡◌};
ghost use Rattle.qs_syncset.specs.audit.Coalesced.{IsCoalesced};
ghost use Rattle.qs_syncset.specs.held.Table.{AreSetsOf};

use crate::held::Sets;
use qs_graph::{Graph, Node};

/// Removes each synchronisation whose own handler, by its name, is held as it is reached; takes no memory.
pub fn coalesce(mut graph: Graph, sets: &Sets) -> Graph
    requires sets { AreSetsOf graph sets.now }
    ensures coalesced { IsCoalesced graph result.nodes }
    ensures same_names { result.names ≡ graph.names }
    ensures same_aliases { result.aliases ≡ graph.aliases }
{
    graph.keeps_graph();
    for n in 0..graph.len() {
        if let Node::Sync(handler) = graph.node(n) {
            if sets.holds(n, *handler) {
                graph.make_local(n);
            }
        }
    }
    graph
}
