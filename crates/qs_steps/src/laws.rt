//! What holds of the lines of steps: worked examples, and that a run is played again by the actors that stepped in it.

ghost use Rattle.qs_steps.specs.StepNames.{StepsAreNamed};
ghost use Rattle.qs_steps.specs.StepReplays.{StepsReplay};

/// Of every run by picks and rounds, under the plain rules and on the optimised machine: the actors that stepped in it,
/// as picks and with no round, show the same. It does nothing.
pub fn steps_replay()
    ensures replay { StepsReplay }
{}

/// Of every schedule, under the plain rules and on the optimised machine: the lines of its steps name the actors that
/// stepped, in their order, and each line has the number and the name of the actor that was asked then. It does
/// nothing.
pub fn steps_are_named()
    ensures named { StepsAreNamed }
{}
