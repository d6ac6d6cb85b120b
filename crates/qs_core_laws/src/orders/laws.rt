//! What holds of them, for callers' proofs and for readers.

ghost use Rattle.qs_core_laws.specs.orders.CoreOrders.{CoreOrdersArePlayed};

/// For every checked program, mode, chunk size and legal order of its blocks there are picks by which the optimised
/// machine, without a round after them, shows exactly this order, each block ended, and the run finished where the
/// order is complete. It does nothing.
pub fn core_orders_are_played()
    ensures played { CoreOrdersArePlayed }
{}
