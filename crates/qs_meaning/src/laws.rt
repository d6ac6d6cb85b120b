//! What the definitions say of blocks, for callers' proofs and for readers.

ghost use Rattle.qs_meaning.specs.Alike.{BlocksAlike, PlacesAlike, ValuesByName};
ghost use Rattle.qs_meaning.specs.Configurations.{CompleteOrdersLeaveNone, ConfigurationsFollowOrders, UnnamedStayZero};
ghost use Rattle.qs_meaning.specs.Following.{BlocksAskOnly, HonestTracesRun};
ghost use Rattle.qs_meaning.specs.Interaction.{TreesAgree};
ghost use Rattle.qs_meaning.specs.MeaningExamples.{MeaningExamples};
ghost use Rattle.qs_meaning.specs.Paths.{RequestsWithinLoad};
ghost use Rattle.qs_meaning.specs.Reduced.{NeighboursSwap, OutcomesAreUnion, ReducedOrdersSuffice, SomeGoOn};
ghost use Rattle.qs_meaning.specs.StateKinds.{SerialKeepsKinds};
ghost use Rattle.qs_meaning.specs.StateRanges.{OrdersKeepRanges};
ghost use Rattle.qs_meaning.specs.TraceLoads.{SerialWithinLoad, TracesWithinLoad};

/// A block alone, its statements run one after another, does what its interaction tree does: the same requests with the
/// same replies, the same variables and the same states at the end. It does nothing.
pub fn blocks_alone_follow_their_trees()
    ensures agree { TreesAgree }
{}

/// On every path of a block's interaction tree, whatever the replies, the requests on an object are at most the block's
/// load for it; it does nothing.
pub fn requests_within_load()
    ensures within { RequestsWithinLoad }
{}

/// The trace of a block alone has at most as many requests on an object as its load says, whatever the variables and
/// the states; so has the trace of each block of a serial run. A checked program answers these loads by client, block
/// and object. It does nothing.
pub fn traces_within_load()
    ensures alone { TracesWithinLoad }
    ensures serial { SerialWithinLoad }
{}

/// Programs with the replies and the states of their serial runs, computed by the definitions; it does nothing.
pub fn meaning_examples()
    ensures examples { MeaningExamples }
{}

/// A trace along a block's interaction tree, whose replies on each object are the object's own, is what the block does
/// alone, as far as the trace goes. It does nothing.
pub fn honest_traces_run()
    ensures run { HonestTracesRun }
{}

/// A block of a checked program makes requests on the objects of its list alone; what it calls are commands, and what
/// it asks are queries. It does nothing.
pub fn blocks_ask_only()
    ensures only { BlocksAskOnly }
{}

/// Two blocks of equal text, of one checked program or of two, with equal entry values of the variables that the text
/// names: if the states from which they start are equal on each object on which both make a request, matched by name,
/// their traces are equal, replies and all. Whatever the states, their traces are equal up to the first query on an
/// object whose states differ, and wholly if there is no such query. The same holds of two places of serial runs; and
/// where all variables of one name have equal values, those that the text names do. It does nothing.
pub fn alike()
    ensures blocks { BlocksAlike }
    ensures places { PlacesAlike }
    ensures by_name { ValuesByName }
{}

/// The states that each place of a serial run of a checked program finds, and those at its end, are of the declared
/// kinds: each object has the operations of its kind, and no others. It does nothing.
pub fn serial_keeps_kinds()
    ensures kinds { SerialKeepsKinds }
{}

/// Along a legal order each client's next block leads from a configuration to the next one. The configuration at the
/// end has the variables and the states of the serial run; and the order is complete exactly where each client has
/// begun all its blocks. A variable that its client's text doesn't name stays 0, and objects stay in range. It does
/// nothing.
pub fn configurations()
    ensures follow { ConfigurationsFollowOrders }
    ensures complete { CompleteOrdersLeaveNone }
    ensures unnamed { UnnamedStayZero }
    ensures ranges { OrdersKeepRanges }
{}

/// Nobody disturbs those who go on at a configuration: no other client has a block left that shares an object with the
/// next block of one of them; and somebody goes on wherever a block is left. Neighbours of different clients that share
/// no object may be swapped. So every complete order of a checked program comes to what a reduced one comes to. It does
/// nothing.
pub fn reduced_orders()
    ensures some { SomeGoOn }
    ensures swap { NeighboursSwap }
    ensures suffice { ReducedOrdersSuffice }
{}

/// What a checked program can come to after a front of an order is what it can come to after the front and the next
/// block of one who goes on there, for each of these, as long as a block is left. It does nothing.
pub fn outcomes_are_union()
    ensures union { OutcomesAreUnion }
{}
