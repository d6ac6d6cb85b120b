//! What the definitions say of conditions, for callers' proofs and for readers.

ghost use Rattle.qs_questions.specs.Claims.{ChangesKeepSought, StepsAnswer};
ghost use Rattle.qs_questions.specs.Laws.{AskingChangesNothing, RepliesAreThere};

/// A query that a condition may ask changes nothing; and where the program has the reply that is asked for, the object
/// gives one, as long as it is of its declared kind. It does nothing.
pub fn replies()
    ensures unchanged { AskingChangesNothing }
    ensures there { RepliesAreThere }
{}

/// The steps of a condition answer what the condition says; it does nothing.
pub fn steps_answer()
    ensures steps { StepsAnswer }
{}

/// Where alike clients change places of which a condition names none, it says the same as before; it does nothing.
pub fn changes_keep_sought()
    ensures same { ChangesKeepSought }
{}
