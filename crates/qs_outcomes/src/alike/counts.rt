//! For how many outcomes one of them stands.

ghost use Rattle.std.specs.Prelude.{IfOk, ◌≡◌, ◌<◌, ◌≤◌, length};
ghost use Rattle.std.specs.Bool.{Decides};
ghost use Rattle.std.specs.List.{AllByRecursion};
ghost use Rattle.qs_outcomes.specs.Outcomes.{HasPlaces, outcome_at};
ghost use Rattle.qs_outcomes.specs.alike.AlikeCounts.{CountsThose, IsAlikeFrom, IsSameFrom};
ghost use Rattle.qs_outcomes.specs.alike.AlikeOutcomes.{AreCounted, StandsFor};
ghost use Rattle.qs_alike.specs.Changes.{AreClasses};
ghost use Rattle.qs_alike.specs.Texts.{classes_in};

use qs_alike::{Classes, are_alike};
use qs_program::Program;
use qs_standings::Standing;
use std::alloc::{AllocError, Global};

// Whether two clients have the same variables.
fn have_same(standing: &Standing, one: u8, other: u8) -> bool
    requires within { (one < length standing.now.locals) × (other < length standing.now.locals) }
    ensures same { Decides result ((outcome_at standing.now).locals one ≡ (outcome_at standing.now).locals other) }
{
    standing.locals(one) == standing.locals(other)
}

// How many clients of a client's class there are from it on.
fn alike_from(program: &Program, classes: &Classes, place: u8) -> u32
    requires place { place < length program.now.clients }
    ensures count { CountsThose (IsAlikeFrom (classes_in classes.now) place) (length program.now.clients) result }
    ensures few { result ≤ 8 }
{
    program.keeps_sound();
    let mut count = 0;
    for other in place..program.clients() as u8 {
        if are_alike(classes, other, place) {
            count += 1;
        }
    }
    count
}

// How many of these have the same variables as it.
fn same_from(program: &Program, classes: &Classes, standing: &Standing, place: u8) -> u32
    requires place { place < length program.now.clients }
    requires locals { length standing.now.locals ≡ length program.now.clients }
    ensures count { CountsThose (IsSameFrom (classes_in classes.now) (outcome_at standing.now) place)
        (length program.now.clients) result }
    ensures some { 0 < result }
{
    program.keeps_sound();
    let mut count = 0;
    for other in place..program.clients() as u8 {
        if are_alike(classes, other, place) && have_same(standing, other, place) {
            count += 1;
        }
    }
    count
}

/// How many outcomes that of a standing becomes by changes of alike clients, itself among them. Behind each client the
/// count is a whole number, so that no division leaves a rest.
pub fn stands_for(program: &Program, classes: &Classes, standing: &Standing) -> u32
    requires classes { AreClasses program.now (classes_in classes.now) }
    requires places { HasPlaces program.now standing.now }
    ensures count { StandsFor (classes_in classes.now) (outcome_at standing.now) result }
{
    program.keeps_sound();
    let clients = program.clients() as u8;
    let mut count = 1;
    for done in 0..clients {
        let place = clients - 1 - done;
        let same = same_from(program, classes, standing, place);
        count = count * alike_from(program, classes, place) / same;
    }
    count
}

/// For each of some standings how many outcomes its own becomes by changes of alike clients. An error says that memory
/// was refused.
pub(crate) fn counts_of(
    alloc: Global,
    program: &Program,
    classes: &Classes,
    found: &[Standing],
) -> Result<Vec<u32>, AllocError>
    requires classes { AreClasses program.now (classes_in classes.now) }
    requires places { AllByRecursion (HasPlaces program.now) found.now }
    ensures counted { IfOk result (λ counts. AreCounted (classes_in classes.now) found.now counts.items) }
{
    let mut counts = Vec::new(alloc);
    for standing in found {
        counts.push(stands_for(program, classes, standing))?;
    }
    Ok(counts)
}
