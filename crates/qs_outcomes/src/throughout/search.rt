//! The search over configurations, breadth first.

ghost use Rattle.std.specs.Prelude.{◌≡◌, ◌+◌, ◌<◌, ◌≤◌, ◌++◌, ◌∷◌, [], true, None, length};
ghost use Rattle.std.specs.Prelude.{IfOk, IfSome, OnOk, IsErrOf};
ghost use Rattle.qs_serial.specs.audit.NamedOrders.{order_of};
ghost use Rattle.qs_meaning.specs.audit.Serial.{IsLegal};
ghost use Rattle.qs_alike.specs.Changes.{AreClasses};
ghost use Rattle.qs_alike.specs.Followed.{all_legal};
ghost use Rattle.qs_alike.specs.Texts.{classes_in};
ghost use Rattle.qs_outcomes.specs.Answers.{IsBlind};
ghost use Rattle.qs_outcomes.specs.Outcomes.{HasPlaces, outcome_at};
ghost use Rattle.qs_outcomes.specs.Reached.{HasMore, HasNotedUntil};
ghost use Rattle.qs_outcomes.specs.Searches.{HasMoreIn, HasWalkedIn, IsGoingOnIn, IsReady, IsWrittenIn, classes_of};
ghost use Rattle.qs_outcomes.specs.throughout.Courses.{IsCourseAnswerAfter, IsCourseWitnessAfter};
ghost use Rattle.qs_outcomes.specs.throughout.Walked.{IsTakenIn};
ghost use Rattle.qs_standings.specs.Lists.{HasOne};
ghost use Rattle.qs_standings.specs.Rows.{IsInserted, drafted, rows_in};
ghost use Rattle.qs_standings.specs.Standings.{IsFirst};

use crate::search::Search;
use crate::{Answer, OutcomesFault, Question, Watcher};
use indexmap::IndexSet;
use qs_alike::Classes;
use qs_program::Program;
use qs_serial::names_order;
use qs_standings::{
    Draft, Hints, Row, Scratch, Standing, copied, insert, placed, put_by, was_seen,
};
use std::alloc::{AllocError, Global};
use std::collections::VecDeque;

// Notes a key: whether it is new.
fn note(
    alloc: Global,
    limit: u32,
    key: &Draft,
    hints: &mut Hints,
    rows: &mut IndexSet<Row>,
) -> Result<bool, OutcomesFault>
    requires small { length (rows_in rows.old.keys) ≤ limit }
    ensures inserted { IfOk result (λ new.
        IsInserted (rows_in rows.old.keys) (drafted key.now) new (rows_in rows.new.keys)) }
    ensures small { OnOk result (length (rows_in rows.new.keys) ≤ limit) }
    ensures full { IsErrOf result OutcomesFault.Limit → (length (rows_in rows.old.keys) ≡ limit)
        × (HasOne (λ r. drafted key.now ≡ r) (rows_in rows.old.keys) → ⊥) }
    ensures order { ¬ IsErrOf result OutcomesFault.Order }
{
    if was_seen(rows, hints, key) {
        return Ok(false);
    }
    let new = insert(rows, key.row(alloc)?)?;
    if new && rows.len() > limit as usize {
        return Err(OutcomesFault::Limit);
    }
    if new {
        hints.note(alloc, rows.as_slice())?;
    }
    Ok(new)
}

// Puts a standing behind those that wait. It is given back if it is what the question asks for.
fn take_in<Q: Question>(
    alloc: Global,
    program: &Program,
    question: &Q,
    standing: Standing,
    waiting: &mut VecDeque<Standing>,
) -> Result<Option<Standing>, AllocError>
    requires places { HasPlaces program.now standing }
    ensures unmet { IfOk result (λ met. met ≡ None
        → IsTakenIn (Q.asked question.now program.now) standing waiting.old.items waiting.new.items) }
    ensures met { IfOk result (λ met. IfSome met
        (λ s. (s ≡ standing) × (Q.asked question.now program.now (outcome_at s) ≡ true))) }
{
    if question.is_met(alloc, program, &standing)? {
        return Ok(Some(standing));
    }
    waiting.push_back(standing)?;
    Ok(None)
}

// What a search has noted, by keys, and which standings wait for it to go on from them.
#[derive(Drop)]
struct State {
    rows: IndexSet<Row>,
    waiting: VecDeque<Standing>,
    scratch: Scratch,
}

// Notes where the next block of a client leads, if it has one left. It is given back if it is what the question asks for.
// The watcher hears of it if it is new.
fn note_next<Q: Question, W: Watcher>(
    alloc: Global,
    search: &Search<'_>,
    question: &Q,
    watcher: &mut W,
    standing: &Standing,
    client: u8,
    state: &mut State,
) -> Result<Option<Standing>, OutcomesFault>
    requires prepared { IsReady search.now }
    requires blind { IsBlind (classes_of search.now) (Q.asked question.now search.now.program.now) }
    requires client { client < length search.now.program.now.clients }
    requires written { IsWrittenIn search.now standing.now (drafted state.old.scratch.base) state.old.scratch.copy }
    requires going { IsGoingOnIn search.now (Q.asked question.now search.now.program.now) (rows_in state.old.rows.keys)
        standing.now client state.old.waiting.items }
    ensures base { OnOk result (state.new.scratch.base ≡ state.old.scratch.base) }
    ensures copy { OnOk result (state.new.scratch.copy ≡ state.old.scratch.copy) }
    ensures going { IfOk result (λ met. met ≡ None → IsGoingOnIn search.now
        (Q.asked question.now search.now.program.now) (rows_in state.new.rows.keys) standing.now (client + 1)
        state.new.waiting.items) }
    ensures kept { IfOk result (λ met. met ≡ None → length (rows_in state.new.rows.keys) + length
        state.old.waiting.items
        ≡ length (rows_in state.old.rows.keys) + length state.new.waiting.items) }
    ensures witness { IfOk result (λ met. IfSome met (IsCourseWitnessAfter search.now.program.now search.now.front.now
        (Q.asked question.now search.now.program.now))) }
    ensures many { IfOk result (λ met. IfSome met (HasNotedUntil search.now.program.now (classes_of search.now)
        all_legal search.now.front.now (length (rows_in state.new.rows.keys)))) }
    ensures small { OnOk result (length (rows_in state.new.rows.keys) ≤ search.now.limit) }
    ensures limit { IsErrOf result OutcomesFault.Limit → HasMoreIn search.now all_legal }
    ensures order { ¬ IsErrOf result OutcomesFault.Order }
{
    search.program.keeps_sound();
    if usize::from(standing.begun()[usize::from(client)]) >= search.program.blocks_of(client) {
        return Ok(None);
    }
    let led = search.lead(alloc, standing, client, &mut state.scratch, &state.rows)?;
    let Some(next) = led else {
        return Ok(None);
    };
    let scratch = &mut state.scratch;
    match note(
        alloc,
        search.limit,
        &scratch.row,
        &mut scratch.hints,
        &mut state.rows,
    ) {
        Err(fault) => return Err(fault),
        Ok(false) => {
            put_by(&mut state.scratch.spare, next)?;
            return Ok(None);
        }
        Ok(true) => watcher.noted(state.rows.len()),
    }
    let met = take_in(alloc, search.program, question, next, &mut state.waiting)?;
    Ok(met)
}

// Notes where the next blocks of all clients lead from a standing, up to the first that is what the question asks for,
// which is given back.
fn note_all<Q: Question, W: Watcher>(
    alloc: Global,
    search: &Search<'_>,
    question: &Q,
    watcher: &mut W,
    standing: Standing,
    state: &mut State,
) -> Result<Option<Standing>, OutcomesFault>
    requires prepared { IsReady search.now }
    requires blind { IsBlind (classes_of search.now) (Q.asked question.now search.now.program.now) }
    requires walked { HasWalkedIn search.now (Q.asked question.now search.now.program.now) (rows_in state.old.rows.keys)
        (standing ∷ state.old.waiting.items) }
    ensures walked { IfOk result (λ met. met ≡ None → HasWalkedIn search.now
        (Q.asked question.now search.now.program.now) (rows_in state.new.rows.keys) state.new.waiting.items) }
    ensures kept { IfOk result (λ met. met ≡ None → length (rows_in state.new.rows.keys) + length
        state.old.waiting.items
        ≡ length (rows_in state.old.rows.keys) + length state.new.waiting.items) }
    ensures witness { IfOk result (λ met. IfSome met (IsCourseWitnessAfter search.now.program.now search.now.front.now
        (Q.asked question.now search.now.program.now))) }
    ensures many { IfOk result (λ met. IfSome met (HasNotedUntil search.now.program.now (classes_of search.now)
        all_legal search.now.front.now (length (rows_in state.new.rows.keys)))) }
    ensures small { OnOk result (length (rows_in state.new.rows.keys) ≤ search.now.limit) }
    ensures limit { IsErrOf result OutcomesFault.Limit → HasMoreIn search.now all_legal }
    ensures order { ¬ IsErrOf result OutcomesFault.Order }
{
    search.program.keeps_sound();
    search.write(alloc, &standing, &mut state.scratch)?;
    for client in 0..search.program.clients() as u8 {
        let met = note_next(alloc, search, question, watcher, &standing, client, state)?;
        if let Some(witness) = met {
            return Ok(Some(witness));
        }
    }
    put_by(&mut state.scratch.spare, standing)?;
    Ok(None)
}

// Notes where the program stands after the front. It is given back if it is what the question asks for.
fn note_first<Q: Question, W: Watcher>(
    alloc: Global,
    search: &Search<'_>,
    question: &Q,
    watcher: &mut W,
    first: Standing,
    state: &mut State,
) -> Result<Option<Standing>, OutcomesFault>
    requires prepared { IsReady search.now }
    requires blind { IsBlind (classes_of search.now) (Q.asked question.now search.now.program.now) }
    requires first { IsFirst search.now.program.now search.now.front.now first }
    requires rows { rows_in state.old.rows.keys ≡ [] }
    requires waiting { state.old.waiting.items ≡ [] }
    ensures walked { IfOk result (λ met. met ≡ None → HasWalkedIn search.now
        (Q.asked question.now search.now.program.now) (rows_in state.new.rows.keys) state.new.waiting.items) }
    ensures witness { IfOk result (λ met. IfSome met (IsCourseWitnessAfter search.now.program.now search.now.front.now
        (Q.asked question.now search.now.program.now))) }
    ensures many { IfOk result (λ met. IfSome met (HasNotedUntil search.now.program.now (classes_of search.now)
        all_legal search.now.front.now (length (rows_in state.new.rows.keys)))) }
    ensures small { OnOk result (length (rows_in state.new.rows.keys) ≤ search.now.limit) }
    ensures limit { IsErrOf result OutcomesFault.Limit → HasMoreIn search.now all_legal }
    ensures order { ¬ IsErrOf result OutcomesFault.Order }
{
    search.program.keeps_sound();
    let scratch = &mut state.scratch;
    search.write(alloc, &first, scratch)?;
    match note(
        alloc,
        search.limit,
        &scratch.base,
        &mut scratch.hints,
        &mut state.rows,
    ) {
        Err(fault) => return Err(fault),
        Ok(_) => watcher.noted(state.rows.len()),
    }
    let met = take_in(alloc, search.program, question, first, &mut state.waiting)?;
    Ok(met)
}

// Goes on from those that wait, one after another, up to the first that is what the question asks for, which is given
// back.
fn walk<Q: Question, W: Watcher>(
    alloc: Global,
    search: &Search<'_>,
    question: &Q,
    watcher: &mut W,
    state: &mut State,
) -> Result<Option<Standing>, OutcomesFault>
    requires prepared { IsReady search.now }
    requires blind { IsBlind (classes_of search.now) (Q.asked question.now search.now.program.now) }
    requires walked { HasWalkedIn search.now
        (Q.asked question.now search.now.program.now) (rows_in state.old.rows.keys) state.old.waiting.items }
    requires small { length (rows_in state.old.rows.keys) ≤ search.now.limit }
    ensures walked { IfOk result (λ met. met ≡ None → HasWalkedIn search.now
        (Q.asked question.now search.now.program.now) (rows_in state.new.rows.keys) []) }
    ensures witness { IfOk result (λ met. IfSome met (IsCourseWitnessAfter search.now.program.now search.now.front.now
        (Q.asked question.now search.now.program.now))) }
    ensures many { IfOk result (λ met. IfSome met (HasNotedUntil search.now.program.now (classes_of search.now)
        all_legal search.now.front.now (length (rows_in state.new.rows.keys)))) }
    ensures small { OnOk result (length (rows_in state.new.rows.keys) ≤ search.now.limit) }
    ensures limit { IsErrOf result OutcomesFault.Limit → HasMoreIn search.now all_legal }
    ensures order { ¬ IsErrOf result OutcomesFault.Order }
{
    while let Some(standing) = state.waiting.pop_front() {
        let met = note_all(alloc, search, question, watcher, standing, state)?;
        if let Some(witness) = met {
            return Ok(Some(witness));
        }
    }
    Ok(None)
}

// An answer, with how many configurations were noted.
fn answered(witness: Option<Standing>, rows: &IndexSet<Row>) -> Answer
    ensures witness { result.witness ≡ witness }
    ensures configurations { result.configurations ≡ length (rows_in rows.now.keys) }
{
    Answer {
        witness,
        configurations: rows.len(),
    }
}

// The answer after a front, by a search that begins where the program stands after it.
fn search_from<Q: Question, W: Watcher>(
    alloc: Global,
    search: &Search<'_>,
    question: &Q,
    watcher: &mut W,
    first: Standing,
) -> Result<Answer, OutcomesFault>
    requires prepared { IsReady search.now }
    requires blind { IsBlind (classes_of search.now) (Q.asked question.now search.now.program.now) }
    requires first { IsFirst search.now.program.now search.now.front.now first }
    ensures answer { IfOk result (IsCourseAnswerAfter search.now.program.now (classes_of search.now)
        search.now.front.now (Q.asked question.now search.now.program.now)) }
    ensures within { IfOk result (λ answer. answer.configurations ≤ search.now.limit) }
    ensures limit { IsErrOf result OutcomesFault.Limit → HasMoreIn search.now all_legal }
    ensures order { ¬ IsErrOf result OutcomesFault.Order }
{
    search.program.keeps_sound();
    let mut state = State {
        rows: IndexSet::new(alloc),
        waiting: VecDeque::new(alloc),
        scratch: Scratch::new(alloc, search.program)?,
    };
    let met = note_first(alloc, search, question, watcher, first, &mut state)?;
    if let Some(witness) = met {
        return Ok(answered(Some(witness), &state.rows));
    }
    let found = walk(alloc, search, question, watcher, &mut state)?;
    Ok(answered(found, &state.rows))
}

/// Whether a configuration between whole blocks, after the blocks that a list of clients names, is what a question asks
/// for, which says the same where clients of one class change places: where the program stands after these blocks, and
/// after each block of each order that goes on from there. Of all configurations that differ by this one is looked at. The
/// search stops at the first that is asked for: none is reached with fewer blocks. Where there is no witness, no legal
/// order that begins with these blocks leads to what is asked for, and the answer counts all configurations to which such
/// orders lead, but for changes. `Order` comes exactly where no legal order is named, `Limit` only where there are more
/// configurations than the limit, `Memory` where memory was refused. The watcher hears of each new configuration as it is
/// noted.
pub fn ask_throughout<Q: Question, W: Watcher>(
    alloc: Global,
    program: &Program,
    classes: &Classes,
    front: &[u8],
    limit: u32,
    question: &Q,
    watcher: &mut W,
) -> Result<Answer, OutcomesFault>
    requires classes { AreClasses program.now (classes_in classes.now) }
    requires blind { IsBlind (classes_in classes.now) (Q.asked question.now program.now) }
    ensures answer { IfOk result
        (IsCourseAnswerAfter program.now (classes_in classes.now) (order_of front.now)
        (Q.asked question.now program.now)) }
    ensures within { IfOk result (λ answer. answer.configurations ≤ limit) }
    ensures limit { IsErrOf result OutcomesFault.Limit
        → HasMore program.now (classes_in classes.now) all_legal (order_of front.now) limit }
    ensures order { IsErrOf result OutcomesFault.Order → ¬ IsLegal program.now (order_of front.now) }
{
    if !names_order(program, front) {
        return Err(OutcomesFault::Order);
    }
    let first = placed(alloc, program, front)?;
    let order = copied(alloc, first.order())?;
    let search = Search::new(alloc, program, classes, order.as_slice(), limit)?;
    match search_from(alloc, &search, question, watcher, first) {
        Ok(answer) => Ok(answer),
        Err(fault) => Err(fault),
    }
}
