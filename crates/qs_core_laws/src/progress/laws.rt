//! That runs of the optimised machine go on until they are finished, for callers' proofs and for readers.

ghost use Rattle.qs_core_laws.specs.progress.CoreFinishing.{CoreEnoughRoundsFinish, CoreFinishedRunsStay};
ghost use Rattle.qs_core_laws.specs.progress.CoreProgress.{CoreNeverStuck};
ghost use Rattle.qs_core_laws.specs.progress.CoreSteps.{CoreBoundsAreSmall, CoreStepsAreBounded};

/// In the optimised machine, for every checked program, mode, chunk size and list of actors: after it all is finished,
/// or some client or some handler of the program has a step. It does nothing.
pub fn core_never_stuck()
    ensures goes_on { CoreNeverStuck }
{}

/// Where a run of the optimised machine is finished nobody has a step. It does nothing.
pub fn core_finished_runs_stay()
    ensures stay { CoreFinishedRunsStay }
{}

/// In the optimised machine, for every checked program, mode, chunk size and list of actors: no more of them have a
/// step than the program's blocks have steps in all. It does nothing.
pub fn core_steps_are_bounded()
    ensures bounded { CoreStepsAreBounded }
{}

/// By the limits of the language the blocks of a checked program have no more than 612800 steps in the optimised
/// machine. It does nothing.
pub fn core_bounds_are_small()
    ensures small { CoreBoundsAreSmall }
{}

/// Whatever a checked program has shown in the optimised machine after any picks and at least as many rounds as its
/// blocks have steps is finished. It does nothing.
pub fn core_enough_rounds_finish()
    ensures finish { CoreEnoughRoundsFinish }
{}
