//! All outcomes as a list, and the answer to a question.

ghost use Rattle.std.specs.Prelude.{◌≡◌, ◌<◌, ◌+◌, ◌≤◌, IfOk, IfSome, IsErrOf, [], length, None};
ghost use Rattle.qs_serial.specs.audit.NamedOrders.{order_of};
ghost use Rattle.qs_meaning.specs.audit.Serial.{IsLegal};
ghost use Rattle.qs_alike.specs.Changes.{AreClasses};
ghost use Rattle.qs_alike.specs.Followed.{only_reduced};
ghost use Rattle.qs_alike.specs.Texts.{classes_in};
ghost use Rattle.qs_outcomes.specs.Answers.{AreUnmet, IsAnswerAfter, IsBlind, IsWitnessAfter};
ghost use Rattle.qs_outcomes.specs.Outcomes.{AreOutcomes, AreOutcomesAfter, HasMoreThan, HasMoreThanAfter};
ghost use Rattle.qs_outcomes.specs.Reached.{HasMore, HasNoted};
ghost use Rattle.qs_outcomes.specs.Search.{IsExplored};
ghost use Rattle.qs_standings.specs.Rows.{rows_in};

use crate::answer::Answer;
use crate::depth::{Searched, search_ends};
use crate::fault::OutcomesFault;
use crate::question::{Nothing, Question};
use crate::search::Search;
use crate::watcher::{Unwatched, Watcher};
use qs_alike::{Classes, each_alone};
use qs_program::Program;
use qs_serial::names_order;
use qs_standings::{Standing, copied, placed};
use std::alloc::Global;
use std::marker::Model;

/// All outcomes of a program, and how many configurations there are.
pub struct AllOutcomes {
    found: Vec<Standing>,
    configurations: usize,
}

impl Drop for AllOutcomes {
    fn drop(self) {
        let AllOutcomes {
            found: _,
            configurations: _,
        } = self;
    }
}

impl Model for AllOutcomes {
    ghost use Rattle.qs_outcomes.specs.Outcomes.{OutcomesShape};

    ghost Value = { OutcomesShape };

    ghost view = { λ o. record { found = o.found.items; configurations = o.configurations } };
}

impl AllOutcomes {
    /// What a search has found, and how many configurations it went through.
    pub fn new(found: Vec<Standing>, configurations: usize) -> AllOutcomes
        ensures all { result ≡ record { found = found.items; configurations = configurations } }
    {
        AllOutcomes {
            found,
            configurations,
        }
    }

    /// Where the program stands at the end of complete orders: one standing for each outcome.
    pub fn found(&self) -> &[Standing]
        ensures found { result.now ≡ self.now.found }
    {
        self.found.as_slice()
    }

    /// How many configurations there are.
    pub fn configurations(&self) -> usize
        ensures configurations { result ≡ self.now.configurations }
    {
        self.configurations
    }
}

// What a search found after the blocks that a list of clients names: all ends, or the first that a question asks for.
pub(crate) fn search_after<Q: Question, W: Watcher>(
    alloc: Global,
    program: &Program,
    classes: &Classes,
    front: &[u8],
    limit: u32,
    question: &Q,
    watcher: &mut W,
) -> Result<Searched, OutcomesFault>
    requires classes { AreClasses program.now (classes_in classes.now) }
    requires blind { IsBlind (classes_in classes.now) (Q.asked question.now program.now) }
    ensures explored { IfOk result (λ searched. searched.witness ≡ None
        → IsExplored program.now (classes_in classes.now) (order_of front.now) (rows_in searched.seen.keys) []
        searched.found.items) }
    ensures unmet { IfOk result (λ searched. searched.witness ≡ None
        → AreUnmet (Q.asked question.now program.now) searched.found.items) }
    ensures witness { IfOk result (λ searched. IfSome searched.witness
        (IsWitnessAfter program.now (classes_in classes.now) (order_of front.now) (Q.asked question.now program.now))) }
    ensures noted { IfOk result (λ searched. HasNoted program.now (classes_in classes.now) only_reduced
        (order_of front.now)
        (length (rows_in searched.seen.keys))) }
    ensures enough { IfOk result (λ searched. IfSome searched.witness
        (λ s. length s.order < length (order_of front.now) + length (rows_in searched.seen.keys))) }
    ensures legal { IfOk result (λ _. IsLegal program.now (order_of front.now)) }
    ensures within { IfOk result (λ searched. length (rows_in searched.seen.keys) ≤ limit) }
    ensures limit { IsErrOf result OutcomesFault.Limit
        → HasMore program.now (classes_in classes.now) only_reduced (order_of front.now) limit }
    ensures order { IsErrOf result OutcomesFault.Order → ¬ IsLegal program.now (order_of front.now) }
{
    if !names_order(program, front) {
        return Err(OutcomesFault::Order);
    }
    let first = placed(alloc, program, front)?;
    let order = copied(alloc, first.order())?;
    let search = Search::new(alloc, program, classes, order.as_slice(), limit)?;
    match search_ends(alloc, &search, question, watcher, first) {
        Ok(searched) => Ok(searched),
        Err(fault) => Err(fault),
    }
}

/// All outcomes of a program after the blocks that a list of clients names, each client's in turn: each once, with the
/// least complete order that begins with these, is reduced after them and comes to it, and sorted by these orders; and
/// how many different configurations orders lead to that are reduced after them. `Order` comes exactly where no legal
/// order is named, `Limit` only where there are more configurations than the limit, `Memory` where memory was refused.
/// The watcher hears of each new configuration as it is noted.
pub fn outcomes_watched<W: Watcher>(
    alloc: Global,
    program: &Program,
    front: &[u8],
    limit: u32,
    watcher: &mut W,
) -> Result<AllOutcomes, OutcomesFault>
    ensures outcomes { IfOk result (λ all. AreOutcomesAfter program.now (order_of front.now) all) }
    ensures within { IfOk result (λ all. all.configurations ≤ limit) }
    ensures limit { IsErrOf result OutcomesFault.Limit → HasMoreThanAfter program.now (order_of front.now) limit }
    ensures order { IsErrOf result OutcomesFault.Order → ¬ IsLegal program.now (order_of front.now) }
{
    program.keeps_sound();
    let classes = each_alone();
    match search_after(alloc, program, &classes, front, limit, &Nothing, watcher) {
        Ok(Searched { found, seen, .. }) => Ok(AllOutcomes {
            found,
            configurations: seen.len(),
        }),
        Err(fault) => Err(fault),
    }
}

/// Whether an outcome of a program, after the blocks that a list of clients names, is what a question asks for, which says
/// the same where clients of one class change places. Of all configurations that differ by this one is looked at. The
/// search stops at the first that is asked for: the one with the least complete order that begins with these blocks, is
/// followed after them and comes to what is asked for. Where there is no witness, no complete order that begins with these
/// comes to it. The faults are those of `outcomes_watched`, but that a search that has stopped meets no limit.
pub fn ask_watched<Q: Question, W: Watcher>(
    alloc: Global,
    program: &Program,
    classes: &Classes,
    front: &[u8],
    limit: u32,
    question: &Q,
    watcher: &mut W,
) -> Result<Answer, OutcomesFault>
    requires classes { AreClasses program.now (classes_in classes.now) }
    requires blind { IsBlind (classes_in classes.now) (Q.asked question.now program.now) }
    ensures answer { IfOk result (IsAnswerAfter program.now (classes_in classes.now) (order_of front.now)
        (Q.asked question.now program.now)) }
    ensures within { IfOk result (λ answer. answer.configurations ≤ limit) }
    ensures limit { IsErrOf result OutcomesFault.Limit
        → HasMore program.now (classes_in classes.now) only_reduced (order_of front.now) limit }
    ensures order { IsErrOf result OutcomesFault.Order → ¬ IsLegal program.now (order_of front.now) }
{
    program.keeps_sound();
    match search_after(alloc, program, classes, front, limit, question, watcher) {
        Ok(Searched { witness, seen, .. }) => Ok(Answer {
            witness,
            configurations: seen.len(),
        }),
        Err(fault) => Err(fault),
    }
}

/// All outcomes of a program after the blocks that a list of clients names, each client's in turn: each once, with the
/// least complete order that begins with these, is reduced after them and comes to it, and sorted by these orders; and
/// how many different configurations orders lead to that are reduced after them. `Order` comes exactly where no legal
/// order is named, `Limit` only where there are more configurations than the limit, `Memory` where memory was refused.
pub fn outcomes_after(
    alloc: Global,
    program: &Program,
    front: &[u8],
    limit: u32,
) -> Result<AllOutcomes, OutcomesFault>
    ensures outcomes { IfOk result (λ all. AreOutcomesAfter program.now (order_of front.now) all) }
    ensures within { IfOk result (λ all. all.configurations ≤ limit) }
    ensures limit { IsErrOf result OutcomesFault.Limit → HasMoreThanAfter program.now (order_of front.now) limit }
    ensures order { IsErrOf result OutcomesFault.Order → ¬ IsLegal program.now (order_of front.now) }
{
    outcomes_watched(alloc, program, front, limit, &mut Unwatched)
}

/// All outcomes of a program, each once, with the least reduced order that comes to it, and sorted by these orders; and
/// how many different configurations reduced orders lead to. `Limit` comes only where there are more configurations
/// than the limit, `Memory` where memory was refused, and `Order` never.
pub fn outcomes(alloc: Global, program: &Program, limit: u32) -> Result<AllOutcomes, OutcomesFault>
    ensures outcomes { IfOk result (λ all. AreOutcomes program.now all) }
    ensures within { IfOk result (λ all. all.configurations ≤ limit) }
    ensures limit { IsErrOf result OutcomesFault.Limit → HasMoreThan program.now limit }
    ensures order { ¬ IsErrOf result OutcomesFault.Order }
{
    outcomes_after(alloc, program, &[], limit)
}
