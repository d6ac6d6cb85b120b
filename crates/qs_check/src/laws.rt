//! What the definitions of faults, loads and blocks promise; and worked examples of them.

ghost use Rattle.qs_check.specs.WellFormed.{FaultlessAreWellFormed};

/// A script of the grammar's form has no fault in its text, no excess of load and none of weight exactly where it is
/// well formed: where its tree meets the conditions on names, requests, limits, ranges, loads and weights, in whichever
/// order they are tested. It does nothing.
pub fn faultless_are_well_formed()
    ensures both { FaultlessAreWellFormed }
{}
