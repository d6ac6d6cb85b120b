//! Worked examples of drawings, and what holds of them and of every chart.

ghost use Rattle.qs_dot.specs.ChartLaws.{EndsAreOutcomes, EndsHaveNumbers};
ghost use Rattle.qs_dot.specs.DotText.{DotTextsAreUnique};

/// A sound program has one drawing of its graphs; it does nothing.
pub fn dot_texts_are_unique()
    ensures unique { DotTextsAreUnique }
{}

/// No block leads on from a place of a chart exactly where no client has a block left; it does nothing.
pub fn ends_are_outcomes()
    ensures ends { EndsAreOutcomes }
{}

/// Each end of a chart has a number in a list of all outcomes after its front; it does nothing.
pub fn ends_have_numbers()
    ensures numbers { EndsHaveNumbers }
{}
