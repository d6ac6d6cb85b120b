// Searches of other kinds: one of all alike outcomes, and all outcomes by many threads.

ghost use Rattle.std.specs.Prelude.{◌≡◌, ◌<◌, ◌⊎◌, [], length, IfOk};
ghost use Rattle.std.specs.List.{AllByRecursion};
ghost use Rattle.qs_outcomes.specs.Outcomes.{HasPlaces};
ghost use Rattle.qs_report.specs.declared.faults.Fault.TheVariants as fault;
ghost use Rattle.qs_line.specs.audit.Line.{alike, outcomes};
ghost use Rattle.qs_serve.specs.Due.{alike_in, IsDueOfProgram, IsOutOfMemory, IsRefusedBy, listed_as};

use crate::due::{Due, due_of_all, due_of_bytes, due_of_list, due_of_outcomes};
use qs_alike::classes_of;
use qs_check::Program;
use qs_json::alike_json;
use qs_levels::outcomes_by_levels;
use qs_line::{Format, OutcomesFormat, Part, clients_of};
use qs_outcomes::Watcher;
use qs_outcomes::alike::{AlikeOutcomes, outcomes_alike};
use qs_report::{Fault, alike_text};
use std::alloc::{AllocError, Global};
use std::thread::Threads;

// The text of one of all alike outcomes, in a format.
fn text_of_alike(
    alloc: Global,
    program: &Program,
    format: Format,
    all: &AlikeOutcomes,
) -> Result<Vec<u8>, AllocError>
    requires places { AllByRecursion (HasPlaces program.now) all.now.found }
    requires counted { length all.now.counts ≡ length all.now.found }
    ensures text { IfOk result (λ bytes. bytes.items ≡ alike_in format program.now all.now) }
{
    let (found, counts) = (all.found(), all.counts());
    match format {
        Format::Text => alike_text(alloc, program, found, counts, all.configurations()),
        Format::Json => alike_json(alloc, program, found, counts, all.configurations()),
    }
}

/// One of all outcomes that differ by alike clients in each other's places, in a format, found over so many
/// configurations at most.
pub(crate) fn due_of_alike(alloc: Global, program: &Program, format: Format, limit: u32) -> Due
    ensures not_input { ¬ IsRefusedBy fault.Input result }
    ensures due { IsOutOfMemory result ⊎ IsDueOfProgram (alike format limit) [] program.now result }
{
    let classes = classes_of(program);
    match outcomes_alike(alloc, program, &classes, limit) {
        Ok(all) => due_of_bytes(text_of_alike(alloc, program, format, &all)),
        Err(fault) => Due::Refused(Fault::Outcomes(fault)),
    }
}

/// How all outcomes are searched for: over at most so many configurations, by so many threads, and after the blocks of
/// the clients that a list names.
#[derive(Clone, Copy)]
pub(crate) struct Search<'a> {
    pub limit: u32,
    pub threads: u32,
    pub front: &'a [Part],
}

// All outcomes that a search by many threads finds, or their ends alone, in a format.
fn due_of_levels<T: Threads + Sync, P: Watcher>(
    rt: &T,
    alloc: Global,
    program: &Program,
    ends: bool,
    format: Format,
    search: Search,
    watcher: &mut P,
) -> Due
    requires threads { 0 < search.threads }
    ensures not_input { ¬ IsRefusedBy fault.Input result }
    ensures due { IsOutOfMemory result ⊎ IsDueOfProgram (outcomes (listed_as ends format) search.entry.limit search.entry.threads search.entry.front.now) [] program.now result }
{
    let Search {
        limit,
        threads,
        front,
    } = search;
    let clients = match clients_of(alloc, program, front) {
        Ok(clients) => clients,
        Err(fault) => return due_of_list(fault),
    };
    let clients = clients.as_slice();
    match outcomes_by_levels(
        rt,
        alloc,
        program,
        clients,
        limit,
        threads as usize,
        watcher,
    ) {
        Ok(all) => due_of_all(alloc, program, ends, format, all),
        Err(fault) => Due::Refused(Fault::Outcomes(fault)),
    }
}

/// All outcomes that a search finds, in a format; a watcher is told of them. A drawing is made by one thread.
pub(crate) fn due_by_threads<T: Threads + Sync, P: Watcher>(
    rt: &T,
    alloc: Global,
    program: &Program,
    format: OutcomesFormat,
    search: Search,
    watcher: &mut P,
) -> Due
    ensures not_input { ¬ IsRefusedBy fault.Input result }
    ensures due { IsOutOfMemory result ⊎ IsDueOfProgram (outcomes format search.entry.limit search.entry.threads search.entry.front.now) [] program.now result }
{
    let Search {
        limit,
        threads,
        front,
    } = search;
    if threads < 2 {
        return due_of_outcomes(alloc, program, format, limit, threads, front, watcher);
    }
    match format {
        OutcomesFormat::List(how) => {
            due_of_levels(rt, alloc, program, false, how, search, watcher)
        }
        OutcomesFormat::Ends(how) => due_of_levels(rt, alloc, program, true, how, search, watcher),
        OutcomesFormat::Dot => due_of_outcomes(
            alloc, program, format, limit, threads, front, watcher,
        ),
    }
}
