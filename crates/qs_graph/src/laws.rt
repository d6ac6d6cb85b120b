//! What the definitions of graphs and walks promise; and worked graphs.

ghost use Rattle.qs_graph.specs.Drawn.{GraphsAreDrawings};
ghost use Rattle.qs_graph.specs.Removal.{RemovalsKeepWalks};
ghost use Rattle.qs_graph.specs.WalkLaws.{
  BlocksHaveGraphs,
  GraphsAreBound,
  PathsStayInside,
  StepsWithinWeight,
  SyncsErased,
  WalksFollowBlocks,
  WalksGoAlongPaths,
  WalksUnfold,
  WalksWithinLimit,
};

/// The graph of a block is drawn from its statements, by what comes next after each, and no other graph is; it does
/// nothing.
pub fn graphs_are_drawings()
    ensures law { GraphsAreDrawings }
{}

/// Each block of a sound program has a graph: node 0 is Entry, edges lead to nodes, numbers are in range, and its nodes
/// are sound by the program's objects and the block's list; it does nothing.
pub fn blocks_have_graphs()
    ensures graphs { BlocksHaveGraphs }
{}

/// From the same variables and states the walk from Entry is at Exit after a number of nodes that the block tells, says
/// what the block's tree with its synchronisations says, and makes the trace, the variables and the states of the block
/// alone, each request done at once; it does nothing.
pub fn walks_follow_blocks()
    ensures follow { WalksFollowBlocks }
{}

/// A walk through statements takes at most three nodes for each unit of their weight; it does nothing.
pub fn steps_within_weight()
    ensures within { StepsWithinWeight }
{}

/// Walks through the blocks of sound programs follow them within one limit; it does nothing.
pub fn walks_within_limit()
    ensures within { WalksWithinLimit }
{}

/// The tree of a block with its synchronisations, without them, is the block's interaction tree; it does nothing.
pub fn syncs_are_erased()
    ensures erased { SyncsErased }
{}

/// Within the limit a walk unfolds node by node, and each of its silent parts ends; it does nothing.
pub fn walks_unfold()
    ensures each { WalksUnfold }
{}

/// A path from Entry stays in its graph; it does nothing.
pub fn paths_stay_inside()
    ensures inside { PathsStayInside }
{}

/// Where a path leads to a walk's node, the path and the node lead to the next one; it does nothing.
pub fn walks_go_along_paths()
    ensures along { WalksGoAlongPaths }
{}

/// Where some synchronisations of a graph are removed, its walks take as many nodes and say the same but for these; it
/// does nothing.
pub fn removals_keep_walks()
    ensures keep { RemovalsKeepWalks }
{}

/// The graph of a text in which names were replaced by their objects is the text's graph with its names replaced; it
/// does nothing.
pub fn graphs_are_bound()
    ensures law { GraphsAreBound }
{}
