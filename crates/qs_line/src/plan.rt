// Who goes when: by a schedule, or by an order of whole blocks.

ghost use Rattle.std.specs.Prelude.{◌≡◌, IfOk, option_map};
ghost use Rattle.clap.specs.Words.{found_of, rows_of};
ghost use Rattle.qs_line.specs.audit.Line.{by_order, picks_at, plan_at, rounds_at, schedule_at};
ghost use Rattle.qs_line.specs.audit.Parts.{clients_in};
ghost use Rattle.qs_line.specs.Line.{plan_of};

use crate::found::text_at;
use crate::parts::Part;
use crate::reading::{clients_in, list_in};
use clap::ArgMatches;
use qs_played::MOST_ROUNDS;
use std::alloc::{AllocError, Global};

/// Who goes when in a run that is played.
#[derive(Drop)]
pub enum Plan {
    /// All actors, one step at a time.
    Schedule {
        /// How many rounds are played at most.
        rounds: u32,
        /// Who steps before the rounds.
        picks: Vec<Part>,
    },
    /// Clients, one whole block after another.
    Order(Vec<Part>),
}

// The rounds of a line; as many as there can be where it has no number of them.
fn rounds_of(found: &ArgMatches<'_>) -> Option<u32>
    ensures rounds { result ≡ rounds_at (rows_of (found_of found.now)) }
{
    match text_at(found, "rounds") {
        Some(text) => text.parse::<u32>().ok(),
        None => Some(MOST_ROUNDS),
    }
}

// The picks of a line; none where it has no list of them.
fn given_picks(alloc: Global, found: &ArgMatches<'_>) -> Result<Option<Vec<Part>>, AllocError>
    ensures picks { IfOk result (λ picks. option_map (λ list. list.items) picks ≡ picks_at (rows_of (found_of found.now))) }
{
    match text_at(found, "pick") {
        Some(text) => list_in(alloc, text),
        None => Ok(Some(Vec::new(alloc))),
    }
}

fn schedule_of(alloc: Global, found: &ArgMatches<'_>) -> Result<Option<Plan>, AllocError>
    ensures schedule { IfOk result (λ plan. option_map plan_of plan ≡ schedule_at (rows_of (found_of found.now))) }
{
    let (Some(rounds), Some(picks)) = (rounds_of(found), given_picks(alloc, found)?) else {
        return Ok(None);
    };
    Ok(Some(Plan::Schedule { rounds, picks }))
}

// The order of a text.
fn order_of(alloc: Global, text: &str) -> Result<Option<Plan>, AllocError>
    ensures order { IfOk result (λ plan. option_map plan_of plan ≡ option_map by_order (clients_in text.now)) }
{
    match clients_in(alloc, text)? {
        Some(clients) => Ok(Some(Plan::Order(clients))),
        None => Ok(None),
    }
}

/// The plan of a line; None exactly where a number or a list does not read.
pub fn given_plan(alloc: Global, found: &ArgMatches<'_>) -> Result<Option<Plan>, AllocError>
    ensures plan { IfOk result (λ plan. option_map plan_of plan ≡ plan_at (rows_of (found_of found.now))) }
{
    match text_at(found, "order") {
        Some(text) => order_of(alloc, text),
        None => schedule_of(alloc, found),
    }
}
