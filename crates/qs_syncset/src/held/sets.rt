//! The held sets of a graph.

ghost use Rattle.std.specs.Prelude.{◌≡◌, ◌+◌, ◌*◌, ◌<◌, ◌≤◌, false, length, replicate, suc, IfOk, OnOk};
ghost use Rattle.qs_program.specs.audit.Limits.{most_handlers};
ghost use Rattle.qs_syncset.specs.held.Bytes.{every_handler, truths_of};
ghost use Rattle.qs_syncset.specs.held.Table.{AreSetsOf, has};

use crate::held::dataflow::run;
use crate::held::worklist::{Turns, Worklist};
use qs_graph::Graph;
use smallvec::{SmallVec, smallvec};
use std::alloc::{AllocError, Global};
use std::marker::{Brand, Model};
use std::sync::ledger::{Blank, Ledger};

// The sets of so many nodes take no memory.
const IN_PLACE: usize = 32;

/// For each node of a graph the handlers that are held there: one byte a node, handler h in bit h.
pub struct Sets {
    bytes: SmallVec<u8, IN_PLACE>,
}

impl Drop for Sets {
    fn drop(self) {
        let Sets { bytes: _ } = self;
    }
}

impl Model for Sets {
    ghost use Rattle.std.specs.Prelude.{List, Bool};
    ghost use Rattle.qs_syncset.specs.held.Bytes.{truths_of};

    ghost Value = { List (List Bool) };

    ghost view = { λ s. truths_of s.bytes.items };
}

impl Sets {
    /// Whether a handler is held as a node is reached; takes no memory.
    pub fn holds(&self, node: usize, handler: u8) -> bool
        requires node { node < length self.now }
        requires handler { handler < most_handlers }
        ensures value { result ≡ has self.now node handler }
    {
        (self.bytes[node] >> handler) & 1 == 1
    }
}

// The pass from Entry on, where as yet nothing has come to any node.
fn run_from_entry<L: Ledger>(
    alloc: Global,
    graph: &Graph,
    reached: &mut [bool],
    bytes: &mut [u8],
    turns: &mut Turns<L>,
) -> Result<(), AllocError>
    requires reached { reached.old ≡ replicate (length graph.now.nodes) false }
    requires bytes { bytes.old ≡ replicate (length graph.now.nodes) every_handler }
    ensures sets { OnOk result (AreSetsOf graph.now (truths_of bytes.new)) }
    ensures long { OnOk result (length bytes.new ≡ length graph.now.nodes) }
    ensures counted { OnOk result (turns.old < turns.new) }
    ensures turns { turns.new ≤ turns.old + suc most_handlers * length graph.now.nodes }
{
    graph.keeps_graph();
    reached[0] = true;
    bytes[0] = 0;
    let mut list = Worklist::of(alloc, 0)?;
    run(graph, reached, bytes, &mut list, turns)
}

/// The held sets of a graph, with a turn for each node that is taken from the worklist. Whether memory lasts or not,
/// there are at most nine for each node of the graph: a node is put on the list as it is first reached and as its set
/// loses one of 8 handlers. Where memory lasts, Entry at least is taken.
pub fn held_sets_counted<L: Ledger>(
    alloc: Global,
    graph: &Graph,
    turns: &mut Turns<L>,
) -> Result<Sets, AllocError>
    ensures sets { IfOk result (λ sets. AreSetsOf graph.now sets) }
    ensures counted { OnOk result (turns.old < turns.new) }
    ensures turns { turns.new ≤ turns.old + suc most_handlers * length graph.now.nodes }
{
    let count = graph.len();
    let mut reached: SmallVec<bool, IN_PLACE> = smallvec![in alloc; false; count]?;
    let mut bytes: SmallVec<u8, IN_PLACE> = smallvec![in alloc; 0xff; count]?;
    run_from_entry(alloc, graph, &mut reached, &mut bytes, turns)?;
    Ok(Sets { bytes })
}

// The held sets of a graph, whose turns a new ledger counts.
fn newly_counted<L: Ledger>(alloc: Global, graph: &Graph, blank: Blank) -> Result<Sets, AllocError>
    requires name { blank.name ≡ L.name }
    requires parts { blank.parts ≡ L.parts }
    requires some { 0 < blank.parts }
    ensures sets { IfOk result (λ sets. AreSetsOf graph.now sets) }
{
    let mut turns = Turns::<L>::new(blank);
    held_sets_counted(alloc, graph, &mut turns)
}

/// The held sets of a graph.
pub fn held_sets(alloc: Global, graph: &Graph) -> Result<Sets, AllocError>
    ensures sets { IfOk result (λ sets. AreSetsOf graph.now sets) }
{
    newly_counted::<Brand>(alloc, graph, Blank::new(1))
}
