//! Parts of a level are merged, in the order of their leads.

ghost use Rattle.std.specs.Prelude.{◌≡◌, ◌<◌, ◌≤◌, true, false, suc, [], ◌∷◌, ◌++◌, IfOk, OnOk, IsErrOf, length, slice_index_or, slice_set};
ghost use Rattle.qs_levels.specs.meaning.Onward.{HasMoreOnward};
ghost use Rattle.qs_levels.specs.meaning.Levels.{IsNextOf, IsSomeLevel};
ghost use Rattle.qs_levels.specs.Merging.{AreParts, IsBetter, IsLeastPart, IsLess, IsNoMore, rests_of, spot_of};
ghost use Rattle.qs_levels.specs.Shares.{AreGoing};

use crate::level::{Going, Level, Spot};
use crate::part::LevelPart;
use crate::step::Step;
use crate::table::Lead;
use qs_outcomes::OutcomesFault;
use std::alloc::{AllocError, Global};

// The part with the least first lead so far, and this lead.
#[derive(Clone, Copy, Drop)]
struct Candidate {
    number: usize,
    lead: Lead,
}

fn is_less(one: Lead, other: Lead) -> bool
    ensures less { result ≡ true → IsLess one other }
    ensures past { result ≡ false → IsNoMore other one }
{
    one.source < other.source || (one.source == other.source && one.client < other.client)
}

// Puts the part with this number, which has this first lead, in the place of the best of those before it where it is
// better. Nothing is written where it isn't, since each configuration has this done for each part.
fn improve(best: &mut Option<Candidate>, number: usize, first: Option<Lead>)
    ensures better { IsBetter best.old number first best.new }
{
    let Some(lead) = first else {
        return;
    };
    if let Some(least) = best {
        if !is_less(lead, least.lead) {
            return;
        }
    }
    *best = Some(Candidate { number, lead });
}

// The part whose first lead from its place on is the least.
fn least(parts: &[LevelPart], places: &[usize]) -> Option<usize>
    requires even { length places.now ≡ length parts.now }
    ensures least { IsLeastPart (rests_of places.now parts.now) result }
{
    let mut best = None;
    for number in 0..parts.len() {
        improve(&mut best, number, parts[number].lead_from(places[number]));
    }
    match best {
        Some(candidate) => Some(candidate.number),
        None => None,
    }
}

/// Adds a place behind others.
pub(crate) fn add(spots: &mut Vec<Spot>, spot: Spot) -> Result<(), AllocError>
    ensures added { OnOk result (spots.new.items ≡ spots.old.items ++ spot ∷ []) }
{
    spots.push(spot)?;
    Ok(())
}

// Adds the place of a part that comes next, and passes over it.
fn take(
    parts: &[LevelPart],
    places: &mut Vec<usize>,
    number: usize,
    spots: &mut Vec<Spot>,
) -> Result<(), AllocError>
    requires number { number < length parts.now }
    requires few { length parts.now ≤ 256 }
    requires even { length places.old.items ≡ length parts.now }
    requires within { slice_index_or places.old.items number 0 < length (slice_index_or parts.now number []) }
    ensures places { places.new.items ≡ slice_set places.old.items number (suc (slice_index_or places.old.items number 0)) }
    ensures spots { OnOk result (spots.new.items ≡ spots.old.items ++ spot_of parts.now number (slice_index_or places.old.items number 0) ∷ []) }
{
    let part = &parts[number];
    let place = places[number];
    let end = part.len();
    if place >= end {
        unreachable!();
    }
    places[number] = place + 1;
    let going = Going {
        clients: part.going(place),
        share: number as u8,
    };
    add(
        spots,
        Spot {
            place,
            part: number as u8,
            going,
        },
    )?;
    Ok(())
}

// All to which a level leads, from the parts of all shares.
fn merged(
    alloc: Global,
    step: &Step<'_>,
    parts: Vec<LevelPart>,
    mut spots: Vec<Spot>,
) -> Result<Level, OutcomesFault>
    requires level { IsSomeLevel step.now.search.program.now step.now.search.front.now step.now.level.now.standings }
    requires parts { AreParts step.now.search.program.now step.now.search.front.now step.now.level.now.standings
        parts.items }
    requires some { 0 < length parts.items }
    requires few { length parts.items ≤ 256 }
    ensures next { IfOk result
        (λ next. IsNextOf step.now.search.program.now step.now.search.front.now step.now.level.now.standings
        next.standings) }
    ensures going { IfOk result (λ next. AreGoing step.now.search.program.now
        (length parts.items) next.standings next.going) }
    ensures limit { ¬ IsErrOf result OutcomesFault.Limit }
    ensures order { ¬ IsErrOf result OutcomesFault.Order }
{
    step.search.program.keeps_sound();
    let mut places = vec![in alloc; 0; parts.len()]?;
    spots.clear();
    while let Some(number) = least(parts.as_slice(), places.as_slice()) {
        take(parts.as_slice(), &mut places, number, &mut spots)?;
    }
    Ok(Level::new(parts, spots))
}

/// The level after a level, from the parts of all shares. There is room for so many configurations.
pub(crate) fn next_of(
    alloc: Global,
    step: &Step<'_>,
    parts: Vec<LevelPart>,
    spots: Vec<Spot>,
) -> Result<Level, OutcomesFault>
    requires level { IsSomeLevel step.now.search.program.now step.now.search.front.now step.now.level.now.standings }
    requires parts { AreParts step.now.search.program.now step.now.search.front.now step.now.level.now.standings
        parts.items }
    requires some { 0 < length parts.items }
    requires few { length parts.items ≤ 256 }
    ensures next { IfOk result
        (λ next. IsNextOf step.now.search.program.now step.now.search.front.now step.now.level.now.standings
        next.standings) }
    ensures going { IfOk result (λ next. AreGoing step.now.search.program.now
        (length parts.items) next.standings next.going) }
    ensures small { IfOk result (λ next. length next.standings ≤ step.now.room) }
    ensures limit { IsErrOf result OutcomesFault.Limit
        → HasMoreOnward step.now.search.program.now step.now.search.front.now step.now.level.now.standings
        step.now.room }
    ensures order { ¬ IsErrOf result OutcomesFault.Order }
{
    let next = merged(alloc, step, parts, spots)?;
    if next.len() > step.room {
        return Err(OutcomesFault::Limit);
    }
    Ok(next)
}
