//! Worked examples of the texts, and what holds of the texts of graphs and of outcomes.

ghost use Rattle.qs_report.specs.EndsText.{EndsTellApart, EndsTextsAreUnique};
ghost use Rattle.qs_report.specs.GraphText.{GraphTextsAreUnique};
ghost use Rattle.qs_report.specs.OutcomesText.{OutcomesTextsAreUnique};

/// A sound program has one text of its graphs; it does nothing.
pub fn graph_texts_are_unique()
    ensures unique { GraphTextsAreUnique }
{}

/// A program has one text of its outcomes after a front, also where the limit is another one; it does nothing.
pub fn outcomes_texts_are_unique()
    ensures unique { OutcomesTextsAreUnique }
{}

/// A program has one text of its ends after a front, also where the limit is another one; it does nothing.
pub fn ends_texts_are_unique()
    ensures unique { EndsTextsAreUnique }
{}

/// Different ends of a checked program have different texts, whichever blocks came first. So where two texts of all ends
/// differ, the ends do, and each text once is each end once. It does nothing.
pub fn ends_tell_apart()
    ensures apart { EndsTellApart }
{}
