//! That runs by the plain rules go on until they are finished, for callers' proofs and for readers.

ghost use Rattle.qs_plain_laws.specs.progress.Finishing.{EnoughRoundsFinish, FairRunsFinish, FinishedRunsStay};
ghost use Rattle.qs_plain_laws.specs.progress.Progress.{NeverStuck};
ghost use Rattle.qs_plain_laws.specs.progress.Steps.{BoundsAreSmall, StepsAreBounded};

/// For every checked program and every list of actors: after it all is finished, or some client or some handler of the
/// program has a step. It does nothing.
pub fn never_stuck()
    ensures goes_on { NeverStuck }
{}

/// Where all is finished nobody has a step. It does nothing.
pub fn finished_runs_stay()
    ensures stay { FinishedRunsStay }
{}

/// For every checked program and every list of actors: no more of them have a step than the program's blocks have steps
/// in all. It does nothing.
pub fn steps_are_bounded()
    ensures bounded { StepsAreBounded }
{}

/// By the limits of the language the blocks of a checked program have no more than 205120 steps. It does nothing.
pub fn bounds_are_small()
    ensures small { BoundsAreSmall }
{}

/// After at least as many lists of actors as its blocks have steps, in each of which each client and each handler has a
/// turn, a checked program is finished, whoever else has a turn, and in whatever order. It does nothing.
pub fn fair_runs_finish()
    ensures finish { FairRunsFinish }
{}

/// Whatever a checked program has shown after any picks and at least as many rounds as its blocks have steps is
/// finished. It does nothing.
pub fn enough_rounds_finish()
    ensures finish { EnoughRoundsFinish }
{}
