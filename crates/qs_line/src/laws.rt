//! What the definitions say, for readers.

ghost use Rattle.qs_line.specs.Claims.{ClaimsHaveConditions, ScriptClaimsHaveConditions};
ghost use Rattle.qs_line.specs.Numbers.{ClientNumbersStay, NumbersStay};
ghost use Rattle.qs_line.specs.RunLines.{LinesOfRunsAreThese, RunsAreLines};

/// A list of actors by number alone, of no more than the limit, is read as these, each once, and names them in every
/// program; and so is a list of clients. It does nothing.
pub fn numbers_stay()
    ensures stay { NumbersStay }
    ensures clients { ClientNumbersStay }
{}

/// Where a line asks a claim, the claim is of a condition; and so is each claim of a script. It does nothing.
pub fn claims_have_conditions()
    ensures conditions { ClaimsHaveConditions }
    ensures of_scripts { ScriptClaimsHaveConditions }
{}

/// The words of which `run_in` says that they ask for a run are a line that does, and there is no other such line. It
/// does nothing.
pub fn runs_are_lines()
    ensures lines { RunsAreLines }
    ensures these { LinesOfRunsAreThese }
{}
