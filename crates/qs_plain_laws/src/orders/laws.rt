//! What holds of them, for callers' proofs and for readers.

ghost use Rattle.qs_plain_laws.specs.orders.PlainOrders.{OrdersArePlayed};

/// For every checked program and every legal order of its blocks there are picks by which the plain rules, without a
/// round after them, show exactly this order, each block ended, and the run finished where the order is complete. It
/// does nothing.
pub fn orders_are_played()
    ensures played { OrdersArePlayed }
{}
