//! The search depth first: all ends, or the first that a question asks for.

ghost use Rattle.std.specs.Prelude.{◌≡◌, ◌<◌, ◌≤◌, ◌+◌, true, None, IfOk, IfSome, OnOk, IsErrOf, ◌∷◌, [], ◌++◌, length};
ghost use Rattle.qs_alike.specs.Followed.{GoesOnUpTo, only_reduced};
ghost use Rattle.qs_alike.specs.Keys.{IsKey};
ghost use Rattle.qs_outcomes.specs.Answers.{AreUnmet, IsBlind, IsWitnessAfter};
ghost use Rattle.qs_outcomes.specs.Reached.{HasNoted, IsFollowedTo};
ghost use Rattle.qs_outcomes.specs.Search.{IsLonger, IsNoted, IsPushed, work_left};
ghost use Rattle.qs_outcomes.specs.Searches.{HasMoreIn, IsExploredIn, IsReady, IsWrittenIn, classes_of};
ghost use Rattle.qs_standings.specs.Lists.{HasOne};
ghost use Rattle.qs_standings.specs.Rows.{drafted, rows_in};
ghost use Rattle.qs_standings.specs.Standings.{IsFirst, IsStanding, configuration_in};

use crate::fault::OutcomesFault;
use crate::question::Question;
use crate::search::Search;
use crate::watcher::Watcher;
use indexmap::IndexSet;
use qs_standings::{Row, Scratch, Standing, insert, put_by};
use std::alloc::{AllocError, Global};

// Notes the key of a standing: whether it is new.
fn note(
    alloc: Global,
    search: &Search<'_>,
    standing: &Standing,
    scratch: &mut Scratch,
    seen: &mut IndexSet<Row>,
) -> Result<bool, OutcomesFault>
    requires prepared { IsReady search.now }
    requires standing { IsStanding search.now.program.now standing.now.order standing.now }
    requires small { length (rows_in seen.old.keys) ≤ search.now.limit }
    ensures written { OnOk result (IsWrittenIn search.now standing.now (drafted scratch.new.base) scratch.new.copy) }
    ensures noted { IfOk result (λ new. IsNoted (rows_in seen.old.keys) (drafted scratch.new.base) search.now.limit new
        (rows_in seen.new.keys)) }
    ensures full { IsErrOf result OutcomesFault.Limit → (length (rows_in seen.old.keys) ≡ search.now.limit) ×
        (HasOne (IsKey search.now.program.now (classes_of search.now) standing.now) (rows_in seen.old.keys) → ⊥) }
    ensures order { ¬ IsErrOf result OutcomesFault.Order }
{
    search.write(alloc, standing, scratch)?;
    let new = insert(seen, scratch.base.row(alloc)?)?;
    if new && seen.len() > search.limit as usize {
        return Err(OutcomesFault::Limit);
    }
    if new {
        scratch.hints.note(alloc, seen.as_slice())?;
    }
    Ok(new)
}

fn add(list: &mut Vec<Standing>, standing: Standing) -> Result<(), AllocError>
    ensures added { OnOk result (list.new.items ≡ list.old.items ++ standing ∷ []) }
{
    list.push(standing)?;
    Ok(())
}

// Adds where the next block of a client leads that goes on, unless this was seen.
fn push_one(
    alloc: Global,
    search: &Search<'_>,
    standing: &Standing,
    client: u8,
    scratch: &mut Scratch,
    seen: &IndexSet<Row>,
    stack: &mut Vec<Standing>,
) -> Result<(), AllocError>
    requires prepared { IsReady search.now }
    requires client { client < length search.now.program.now.clients }
    requires to { IsFollowedTo search.now.program.now (classes_of search.now) only_reduced search.now.front.now
        standing.now }
    requires goes { GoesOnUpTo search.now.program.now (classes_of search.now) (configuration_in standing.now) client }
    requires written { IsWrittenIn search.now standing.now (drafted scratch.old.base) scratch.old.copy }
    ensures base { scratch.new.base ≡ scratch.old.base }
    ensures copy { scratch.new.copy ≡ scratch.old.copy }
    ensures pushed { OnOk result (IsPushed search.now.program.now (classes_of search.now)
        search.now.front.now (rows_in seen.now.keys) standing.now client stack.old.items stack.new.items) }
{
    if let Some(next) = search.lead(alloc, standing, client, scratch, seen)? {
        add(stack, next)?;
    }
    Ok(())
}

// Adds where the next blocks of those who go on lead, the first client's last.
fn push_next(
    alloc: Global,
    search: &Search<'_>,
    standing: &Standing,
    scratch: &mut Scratch,
    seen: &IndexSet<Row>,
    stack: &mut Vec<Standing>,
) -> Result<(), AllocError>
    requires prepared { IsReady search.now }
    requires to { IsFollowedTo search.now.program.now (classes_of search.now) only_reduced search.now.front.now
        standing.now }
    requires written { IsWrittenIn search.now standing.now (drafted scratch.old.base) scratch.old.copy }
    ensures longer { OnOk result (IsLonger search.now.program.now (classes_of search.now)
        search.now.front.now (rows_in seen.now.keys) standing.now 0 stack.old.items stack.new.items) }
{
    search.program.keeps_sound();
    let goes = search.going(standing, scratch);
    let clients = search.program.clients() as u8;
    for back in 0..clients {
        let client = clients - 1 - back;
        if search.follows(standing, scratch, goes, client) {
            push_one(alloc, search, standing, client, scratch, seen, stack)?;
        }
    }
    Ok(())
}

/// What a search has seen, what it has yet to see, and what it has found: a witness, where it stopped at one, and all
/// ends before it.
#[derive(Drop)]
pub(crate) struct Searched {
    pub(crate) witness: Option<Standing>,
    pub(crate) found: Vec<Standing>,
    pub(crate) seen: IndexSet<Row>,
    stack: Vec<Standing>,
    scratch: Scratch,
}

// Takes up a standing: nothing where its key was seen, else what the next blocks of those who go on lead to, or an end
// where no block is left, which is given back where it is what the question asks for. The watcher hears of a standing
// whose key was not seen.
fn visit<Q: Question, W: Watcher>(
    alloc: Global,
    search: &Search<'_>,
    question: &Q,
    watcher: &mut W,
    standing: Standing,
    state: &mut Searched,
) -> Result<Option<Standing>, OutcomesFault>
    requires prepared { IsReady search.now }
    requires blind { IsBlind (classes_of search.now) (Q.asked question.now search.now.program.now) }
    requires small { length (rows_in state.old.seen.keys) ≤ search.now.limit }
    requires explored { IsExploredIn search.now (rows_in state.old.seen.keys) (state.old.stack.items ++ standing ∷ [])
        state.old.found.items }
    requires unmet { AreUnmet (Q.asked question.now search.now.program.now) state.old.found.items }
    ensures same { state.new.witness ≡ state.old.witness }
    ensures explored { IfOk result (λ met. met ≡ None → IsExploredIn search.now (rows_in state.new.seen.keys)
        state.new.stack.items state.new.found.items) }
    ensures unmet { IfOk result (λ met. met ≡ None → AreUnmet (Q.asked question.now search.now.program.now)
        state.new.found.items) }
    ensures witness { IfOk result (λ met. IfSome met (IsWitnessAfter search.now.program.now (classes_of search.now)
        search.now.front.now (Q.asked question.now search.now.program.now))) }
    ensures noted { IfOk result (λ met. IfSome met (λ _. HasNoted search.now.program.now (classes_of search.now)
        only_reduced search.now.front.now (length (rows_in state.new.seen.keys)))) }
    ensures enough { IfOk result (λ met. IfSome met
        (λ s. length s.order < length search.now.front.now + length (rows_in state.new.seen.keys))) }
    ensures small { OnOk result (length (rows_in state.new.seen.keys) ≤ search.now.limit) }
    ensures less { OnOk result (work_left search.now.limit (rows_in state.new.seen.keys) state.new.stack.items
        < work_left search.now.limit (rows_in state.old.seen.keys) state.old.stack.items + 1) }
    ensures limit { IsErrOf result OutcomesFault.Limit → HasMoreIn search.now only_reduced }
    ensures order { ¬ IsErrOf result OutcomesFault.Order }
{
    search.program.keeps_sound();
    match note(
        alloc,
        search,
        &standing,
        &mut state.scratch,
        &mut state.seen,
    ) {
        Err(fault) => return Err(fault),
        Ok(false) => {
            put_by(&mut state.scratch.spare, standing)?;
            return Ok(None);
        }
        Ok(true) => watcher.noted(state.seen.len()),
    }
    if standing.is_over(search.program, standing.order()) {
        if question.is_met(alloc, search.program, &standing)? {
            return Ok(Some(standing));
        }
        add(&mut state.found, standing)?;
        return Ok(None);
    }
    push_next(
        alloc,
        search,
        &standing,
        &mut state.scratch,
        &state.seen,
        &mut state.stack,
    )?;
    put_by(&mut state.scratch.spare, standing)?;
    Ok(None)
}

/// All ends, or the first that a question asks for, by a search that begins where the program stands after the front.
pub(crate) fn search_ends<Q: Question, W: Watcher>(
    alloc: Global,
    search: &Search<'_>,
    question: &Q,
    watcher: &mut W,
    first: Standing,
) -> Result<Searched, OutcomesFault>
    requires prepared { IsReady search.now }
    requires first { IsFirst search.now.program.now search.now.front.now first }
    requires blind { IsBlind (classes_of search.now) (Q.asked question.now search.now.program.now) }
    ensures explored { IfOk result (λ searched. searched.witness ≡ None → IsExploredIn search.now
        (rows_in searched.seen.keys) [] searched.found.items) }
    ensures unmet { IfOk result (λ searched. searched.witness ≡ None
        → AreUnmet (Q.asked question.now search.now.program.now) searched.found.items) }
    ensures witness { IfOk result (λ searched. IfSome searched.witness
        (IsWitnessAfter search.now.program.now (classes_of search.now) search.now.front.now
        (Q.asked question.now search.now.program.now))) }
    ensures noted { IfOk result (λ searched. HasNoted search.now.program.now (classes_of search.now) only_reduced
        search.now.front.now (length (rows_in searched.seen.keys))) }
    ensures enough { IfOk result (λ searched. IfSome searched.witness
        (λ s. length s.order < length search.now.front.now + length (rows_in searched.seen.keys))) }
    ensures within { IfOk result (λ searched. length (rows_in searched.seen.keys) ≤ search.now.limit) }
    ensures limit { IsErrOf result OutcomesFault.Limit → HasMoreIn search.now only_reduced }
    ensures order { ¬ IsErrOf result OutcomesFault.Order }
{
    search.program.keeps_sound();
    let mut state = Searched {
        witness: None,
        found: Vec::new(alloc),
        seen: IndexSet::new(alloc),
        stack: Vec::new(alloc),
        scratch: Scratch::new(alloc, search.program)?,
    };
    add(&mut state.stack, first)?;
    while let Some(standing) = state.stack.pop() {
        let met = visit(alloc, search, question, watcher, standing, &mut state)?;
        if let Some(witness) = met {
            state.witness = Some(witness);
            return Ok(state);
        }
    }
    Ok(state)
}
