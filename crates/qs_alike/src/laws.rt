//! What holds of changes of places, for callers' proofs and for readers.

ghost use Rattle.qs_alike.specs.Arranged.{ArrangedOnce};
ghost use Rattle.qs_alike.specs.Changes.{ChangesKeepOrders, ChangesKeepOutcomes};

/// Where alike clients change places, a legal order stays legal and a complete one complete, and it leads to what it led
/// to but for the change. So the outcomes of a program are all changes of some of them. It does nothing.
pub fn changes_keep()
    ensures orders { ChangesKeepOrders }
    ensures outcomes { ChangesKeepOutcomes }
{}

/// Of all changes of a configuration one alone has the clients of each class in the order of their places. It does
/// nothing.
pub fn arranged_once()
    ensures once { ArrangedOnce }
{}
