//! What held sets and coalescing promise; and worked examples.

ghost use Rattle.qs_syncset.specs.CodeLaws.{CoalescingIsUnique, NodesStaySound, WalksAreSound};
ghost use Rattle.qs_syncset.specs.SyncCounts.{SetsDecide, SyncsAreCounted};

/// A graph has one coalesced form; it does nothing.
pub fn coalescing_is_unique()
    ensures unique { CoalescingIsUnique }
{}

/// The nodes of a code's graphs are sound by the program's objects and the blocks' lists; it does nothing.
pub fn nodes_stay_sound()
    ensures sound { NodesStaySound }
{}

/// The walk through each block of a code, whatever the mode: it is at Exit within the limit, without its
/// synchronisations it says the block's interaction tree, each query is on an object that the client holds then, and
/// all that is asked is of the block's list; it does nothing.
pub fn walks_are_sound()
    ensures sound { WalksAreSound }
{}

/// What a client that follows a trace of a block sends for an object along the block's tree in a code: a Sync for each
/// query in mode Plain, for each that comes first or directly after a command in the dynamic modes, and for each that
/// comes to a synchronisation at which the object is not held in mode Static; and these numbers are in order. It does
/// nothing.
pub fn syncs_are_counted()
    ensures counted { SyncsAreCounted }
{}

/// The held sets of a graph are a test of where its synchronisations are held; it does nothing.
pub fn sets_decide()
    ensures decide { SetsDecide }
{}
