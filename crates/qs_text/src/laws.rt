//! What holds of texts: their order, and what they tell apart.

ghost use Rattle.qs_text.specs.SortedTexts.{OrdersAreUnique};
ghost use Rattle.qs_text.specs.TellApart.{StatesTellApart, VariablesTellApart};

/// The same texts, in whichever order they came, are one text in the order of their bytes; it does nothing.
pub fn orders_are_unique()
    ensures unique { OrdersAreUnique }
{}

/// The texts of two objects under one name are the same only where the objects are, and the texts of a client's
/// variables only where their values are; each value is a number of 64 bits. It does nothing.
pub fn texts_tell_apart()
    ensures states { StatesTellApart }
    ensures variables { VariablesTellApart }
{}
