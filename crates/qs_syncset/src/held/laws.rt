//! What held sets say where no path leads.

ghost use Rattle.qs_syncset.specs.held.Table.{UnreachedNodesHoldAll};

/// Where no path leads, the held sets have each of 8 handlers, so every name of the block's list; it does nothing.
pub fn unreached_nodes_hold_all()
    ensures all { UnreachedNodesHoldAll }
{}
