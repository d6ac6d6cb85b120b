//! The seven promises of the project, one law for each, of every run by the plain rules, on the optimised machine and
//! on threads. The seventh has two more laws, and claims nothing of threads.

ghost use Rattle.qs_core_laws.specs.progress.CoreSteps.{CoreStepsAreBounded};
ghost use Rattle.qs_plain_laws.specs.progress.Steps.{StepsAreBounded};
ghost use Rattle.qs_promises.specs.Answers.{AnswersAreOfRuns};
ghost use Rattle.qs_promises.specs.AsIfSerial.{RunsAreAsIfSerial};
ghost use Rattle.qs_promises.specs.AsAsked.{RunsAreAsAsked};
ghost use Rattle.qs_promises.specs.Determined.{RunsAreDetermined};
ghost use Rattle.qs_promises.specs.BlockAlone.{BlocksAreAsIfAlone, BlocksThatAgreeDoTheSame, OnlyTheOrderDecides};
ghost use Rattle.qs_promises.specs.EnoughRounds.{
  DefaultRoundsAreEnough,
  DefaultRoundsFinish,
  EnoughRoundsFinish,
};
ghost use Rattle.qs_promises.specs.EveryBeginning.{EveryBeginningLeadsToAnOutcome};
ghost use Rattle.qs_promises.specs.Finished.{FinishedRunsAreWhole};
ghost use Rattle.qs_promises.specs.Fronts.{FrontsAreOfRuns};
ghost use Rattle.qs_promises.specs.GoesOn.{MachinesGoOn, RulesGoOn, RunsGoOn};
ghost use Rattle.qs_promises.specs.Isolated.{RunsAreIsolated};
ghost use Rattle.qs_promises.specs.Outcomes.{
  AlikeListsAreOfRuns,
  FinishedRunsAreCovered,
  ListedOutcomesCanHappen,
  ListsAreOfRuns,
  MachineReachesCompleteOrders,
  RulesReachCompleteOrders,
};
ghost use Rattle.qs_promises.specs.Runs.{OutcomesAreRuns, PlayedAreRuns, PlayedInAreRuns};
ghost use Rattle.qs_promises.specs.SerialOrder.{RunsAreInSerialOrder};
ghost use Rattle.qs_promises.specs.Undisturbed.{BlocksAreUndisturbed};

/// What is said of every run is said of all that the calls show: what `play_plain`, `play` and `execute` promise of it
/// is exactly that it is a run of the program, made in the way that was asked for. It does nothing.
pub fn calls_show_runs()
    ensures rules { PlayedAreRuns }
    ensures machine { PlayedInAreRuns }
    ensures threads { OutcomesAreRuns }
{}

/// The order of a run's tickets is one in which its blocks can be run one after another, each whole and alone: a block
/// that is done has done what it does in that serial run, and an open one a beginning of that. It does nothing.
pub fn runs_are_in_serial_order()
    ensures serial { RunsAreInSerialOrder }
{}

/// So what a block does follows from its text, its client's variables as it began, and the states in which the earlier
/// blocks left its objects: it is what the block does alone, from these. Of one program two runs with one order show
/// the same, whatever other clients did and however each was run; and two blocks that agree in all three, of whichever
/// programs, do the same. It does nothing.
pub fn blocks_are_as_if_alone()
    ensures alone { BlocksAreAsIfAlone }
    ensures order { OnlyTheOrderDecides }
    ensures agree { BlocksThatAgreeDoTheSame }
{}

/// Between two requests of one block on one object no request of another block runs. It does nothing.
pub fn blocks_are_undisturbed()
    ensures undisturbed { BlocksAreUndisturbed }
{}

/// A finished run holds each block of the program once, and leaves the objects as the serial run does. It does nothing.
pub fn finished_runs_are_whole()
    ensures whole { FinishedRunsAreWhole }
{}

/// No finished run comes to what is not among the outcomes; and to each outcome some picks lead the plain rules, and
/// the optimised machine in each mode and with each size of chunks, by the order with which it is listed. It does
/// nothing.
pub fn outcomes_leave_nothing_out()
    ensures covered { FinishedRunsAreCovered }
    ensures reached { RulesReachCompleteOrders }
    ensures reached_on { MachineReachesCompleteOrders }
    ensures listed { ListedOutcomesCanHappen }
{}

/// A list of outcomes is of runs, also of those after a front: every finished run whose order begins with the front
/// comes to one of them, and to each of them some picks lead the plain rules, and the optimised machine in each mode
/// and with each size of chunks. So it is of a list with one of all alike outcomes, up to changes of alike clients; and
/// of fronts: what every finished run that goes on so far comes to, an order comes to that goes on from one of them. It
/// does nothing.
pub fn lists_are_of_runs()
    ensures lists { ListsAreOfRuns }
    ensures alike { AlikeListsAreOfRuns }
    ensures fronts { FrontsAreOfRuns }
{}

/// The answer to a claim is of runs. `always yes` says that its condition holds at the end of every finished run, and
/// `throughout yes` that it holds wherever the order of a run has come; `always no`, `some yes` and `throughout no`
/// come with an order that shows it, and some picks lead the plain rules, and the optimised machine in each mode, to
/// its end, with each of its blocks ended. It does nothing.
pub fn answers_are_of_runs()
    ensures answers { AnswersAreOfRuns }
{}

/// By the plain rules and on the optimised machine a run shows the state after exactly the picks and the rounds that
/// were asked for, and no two such runs show different things; on threads it is finished. It does nothing.
pub fn runs_are_as_asked()
    ensures asked { RunsAreAsAsked }
    ensures determined { RunsAreDetermined }
{}

/// A run can't hang: by the plain rules and on the optimised machine, after any picks and rounds, it has finished, or
/// some client or some handler of the program has a step. So where none of them has one it has finished; and where it
/// has finished nobody has one. Of threads nothing of the kind is claimed. It does nothing.
pub fn runs_go_on()
    ensures goes_on { RunsGoOn }
    ensures rules { RulesGoOn }
    ensures machine { MachinesGoOn }
{}

/// The steps that can be made are few, so enough rounds finish a run: by the plain rules and on the optimised machine,
/// whatever the picks, with as many rounds as the program's blocks have steps. The rounds that a command line plays by
/// default are enough for every program. It does nothing.
pub fn enough_rounds_finish()
    ensures steps { StepsAreBounded }
    ensures steps_on { CoreStepsAreBounded }
    ensures finish { EnoughRoundsFinish }
    ensures few { DefaultRoundsAreEnough }
    ensures default { DefaultRoundsFinish }
{}

/// Whatever was picked, there are further picks after which the run has finished and shows an outcome of the program.
/// It does nothing.
pub fn every_beginning_leads_to_an_outcome()
    ensures leads { EveryBeginningLeadsToAnOutcome }
{}

/// Every run is as if its blocks had been run one after another, each whole and alone: the first four promises of a run
/// in one definition, which the headline of the whole program says of what is written. It does nothing.
pub fn runs_are_as_if_serial()
    ensures serial { RunsAreAsIfSerial }
{}

/// Every run is isolated, by one definition for the plain rules, the optimised machine and threads; the first four laws
/// follow from it. It does nothing.
pub fn runs_are_isolated()
    ensures isolated { RunsAreIsolated }
{}
