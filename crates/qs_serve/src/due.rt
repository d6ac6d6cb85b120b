// What a run has to write.

ghost use Rattle.std.specs.Prelude.{◌≡◌, ◌⊎◌, [], false, true};
ghost use Rattle.qs_report.specs.declared.faults.Fault.TheVariants as fault;
ghost use Rattle.qs_line.specs.declared.line.OutcomesFormat.TheVariants as outcomes_format;
ghost use Rattle.qs_line.specs.audit.Line.{check, graph, outcomes, run};
ghost use Rattle.qs_line.specs.Line.{request_of};
ghost use Rattle.qs_serve.specs.Due.{HasAsked, IsDueAfter, IsDueOfFault, IsDueOfList, IsDueOfProgram, IsDueWithoutThreads, IsRefusedBy, IsListOf, IsTextOf, IsOutOfMemory, due_status, listed_as};
ghost use Rattle.std.specs.List.{AllByRecursion};
ghost use Rattle.qs_outcomes.specs.Outcomes.{HasPlaces};

use crate::estimates::due_of_estimate;
use crate::fronts::due_of_fronts;
use crate::plays::{due_of_play, due_of_rules};
use crate::questions::{Asked, due_of_questions, due_of_questions_by_threads};
use crate::reports::due_of_outcome;
use crate::searches::{Search, due_by_threads, due_of_alike};
use crate::syncs::due_of_syncs;
use qs_check::Program;
use qs_chunk::ChunkSize;
use qs_dot::node_lines::NodeLines;
use qs_dot::{MOST_PLACES, chart_dot, dot_text};
use qs_json::{counts_json, ends_json, graph_json, outcomes_json};
use qs_line::{
    Format, GraphFormat, LineFault, ListFault, OutcomesFormat, Part, ReportStyle, Settings,
    clients_of,
};
use qs_outcomes::{AllOutcomes, Watcher, outcomes_watched};
use qs_report::{Fault, check_text, ends_text, graph_text, outcomes_text, status};
use qs_run::{FreeGate, Starter, execute_with};
use qs_syncset::Mode;
use std::alloc::{AllocError, Global};
use std::sync::Wait;
use std::thread::Threads;

/// What a run has to write: the text of its result, or the line of its fault.
#[derive(Drop)]
pub enum Due {
    /// The text of a result.
    Text(Vec<u8>),
    /// The text of an answer that is no.
    No(Vec<u8>),
    /// The line of a fault, and nothing else.
    Refused(Fault),
}

impl Due {
    ghost use Rattle.qs_serve.specs.Due.{due_status};

    /// The status that the run ends with, where all of it is written.
    pub fn status(&self) -> u8
        ensures status { result ≡ due_status self.now }
    {
        match self {
            Due::Text(_) => 0,
            Due::No(_) => 1,
            Due::Refused(fault) => status(fault),
        }
    }
}

// A text that was made, or that an allocation failed.
pub(crate) fn due_of_bytes(text: Result<Vec<u8>, AllocError>) -> Due
    ensures text { IsTextOf text result }
{
    match text {
        Ok(bytes) => Due::Text(bytes),
        Err(_) => Due::Refused(Fault::Memory),
    }
}

// What is due where a list names nobody, or is not read for want of memory.
pub(crate) fn due_of_list(fault: ListFault) -> Due
    ensures due { IsDueOfList fault result }
{
    match fault {
        ListFault::Part { .. } => Due::Refused(Fault::CommandLine),
        ListFault::Memory => Due::Refused(Fault::Memory),
    }
}

// The counts, in a format.
fn due_of_counts(alloc: Global, program: &Program, format: Format) -> Due
    ensures not_input { ¬ IsRefusedBy fault.Input result }
    ensures due { IsOutOfMemory result ⊎ IsDueOfProgram (check format) [] program.now result }
{
    match format {
        Format::Text => due_of_bytes(check_text(alloc, program)),
        Format::Json => due_of_bytes(counts_json(alloc, program)),
    }
}

// The graphs, in a format; a drawing tells the lines of the script's text.
fn due_of_graphs(alloc: Global, program: &Program, lines: &NodeLines, format: GraphFormat) -> Due
    ensures not_input { ¬ IsRefusedBy fault.Input result }
    ensures due { IsOutOfMemory result ⊎ IsDueOfProgram (graph format) lines.now program.now result }
{
    match format {
        GraphFormat::Text => due_of_bytes(graph_text(alloc, program)),
        GraphFormat::Json => due_of_bytes(graph_json(alloc, program)),
        GraphFormat::Dot => due_of_bytes(dot_text(alloc, program, lines)),
    }
}

/// A run on threads. Where it is told to be refused, it was: its starter was asked what a refused run asks, and no more.
pub(crate) fn due_of_run<S: Starter, T: Threads + Wait + Sync>(
    rt: &T,
    alloc: Global,
    program: &Program,
    style: ReportStyle,
    mode: Mode,
    chunk: ChunkSize,
    starter: &mut S,
) -> Due
    ensures not_input { ¬ IsRefusedBy fault.Input result }
    ensures due { IsOutOfMemory result ⊎ IsDueOfProgram (run style mode chunk) [] program.now result }
    ensures started { HasAsked S.answers program.now starter.old starter.new result }
{
    match execute_with(rt, alloc, program, mode, chunk, &FreeGate, starter) {
        Ok(outcome) => due_of_outcome(alloc, program, style, outcome),
        Err(fault) => Due::Refused(Fault::Run(fault)),
    }
}

// The list of all outcomes, or of their ends alone, in a format.
pub(crate) fn due_of_all(
    alloc: Global,
    program: &Program,
    ends: bool,
    format: Format,
    all: AllOutcomes,
) -> Due
    requires places { AllByRecursion (HasPlaces program.now) all.found }
    ensures due { IsListOf ends format program.now all result }
{
    let text = match (ends, format) {
        (false, Format::Text) => outcomes_text(alloc, program, &all),
        (false, Format::Json) => outcomes_json(alloc, program, &all),
        (true, Format::Text) => ends_text(alloc, program, &all),
        (true, Format::Json) => ends_json(alloc, program, &all),
    };
    drop(all);
    due_of_bytes(text)
}

// All outcomes after the blocks of some clients as a list, or their ends alone, found over so many configurations at
// most; a watcher is told of each.
fn due_of_list_after<P: Watcher>(
    alloc: Global,
    program: &Program,
    ends: bool,
    format: Format,
    limit: u32,
    clients: &[u8],
    watcher: &mut P,
) -> Due
    ensures not_input { ¬ IsRefusedBy fault.Input result }
    ensures due { IsDueAfter (listed_as ends format) program.now limit clients.now result }
{
    match outcomes_watched(alloc, program, clients, limit, watcher) {
        Ok(all) => due_of_all(alloc, program, ends, format, all),
        Err(fault) => Due::Refused(Fault::Outcomes(fault)),
    }
}

// The configurations after the blocks of some clients as a drawing.
fn due_of_drawing_after(alloc: Global, program: &Program, limit: u32, clients: &[u8]) -> Due
    ensures not_input { ¬ IsRefusedBy fault.Input result }
    ensures due { IsDueAfter outcomes_format.Dot program.now limit clients.now result }
{
    let limit = if limit < MOST_PLACES {
        limit
    } else {
        MOST_PLACES
    };
    match chart_dot(alloc, program, clients, limit) {
        Ok(text) => Due::Text(text),
        Err(fault) => Due::Refused(Fault::Outcomes(fault)),
    }
}

// All outcomes after the blocks of the clients that a list names, found over so many configurations at most; a watcher
// is told of each. However many threads are asked for, one searches.
pub(crate) fn due_of_outcomes<P: Watcher>(
    alloc: Global,
    program: &Program,
    format: OutcomesFormat,
    limit: u32,
    threads: u32,
    front: &[Part],
    watcher: &mut P,
) -> Due
    ensures not_input { ¬ IsRefusedBy fault.Input result }
    ensures due { IsOutOfMemory result ⊎ IsDueOfProgram (outcomes format limit threads front.now) [] program.now result }
{
    let clients = match clients_of(alloc, program, front) {
        Ok(clients) => clients,
        Err(fault) => return due_of_list(fault),
    };
    let clients = clients.as_slice();
    match format {
        OutcomesFormat::List(format) => {
            due_of_list_after(alloc, program, false, format, limit, clients, watcher)
        }
        OutcomesFormat::Ends(format) => {
            due_of_list_after(alloc, program, true, format, limit, clients, watcher)
        }
        OutcomesFormat::Dot => due_of_drawing_after(alloc, program, limit, clients),
    }
}

/// What settings make of a program: a run by the plain rules or in the optimised machine, a table of synchronisations,
/// an estimate, the answers to claims, fronts, alike outcomes, all outcomes, the counts, or the graphs. A run on threads
/// is refused, as a fault of the command line.
pub(crate) fn due_of_program<P: Watcher>(
    alloc: Global,
    settings: &Settings,
    program: &Program,
    lines: &NodeLines,
    watcher: &mut P,
) -> Due
    ensures not_input { ¬ IsRefusedBy fault.Input result }
    ensures due { IsDueWithoutThreads (request_of settings.now) lines.now program.now result }
{
    match settings {
        Settings::Rules { style, plan } => due_of_rules(alloc, program, *style, plan),
        Settings::Play {
            style,
            mode,
            chunk,
            plan,
        } => due_of_play(alloc, program, *style, *mode, *chunk, plan),
        Settings::Syncs { format, plan } => due_of_syncs(alloc, program, *format, plan),
        Settings::Run { .. } | Settings::Tally { .. } => Due::Refused(Fault::CommandLine),
        Settings::Estimate { format, front } => {
            due_of_estimate(alloc, program, *format, front.as_slice())
        }
        Settings::Ask {
            questions,
            format,
            limit,
            threads,
            front,
        } => {
            let asked = Asked {
                questions: questions.as_slice(),
                format: *format,
                limit: *limit,
                threads: *threads,
            };
            due_of_questions(alloc, program, asked, front.as_slice(), watcher)
        }
        Settings::Fronts {
            format,
            blocks,
            limit,
            orders,
        } => due_of_fronts(alloc, program, *format, *blocks, *limit, orders.as_slice()),
        Settings::Alike { format, limit } => due_of_alike(alloc, program, *format, *limit),
        Settings::Outcomes {
            format,
            limit,
            threads,
            front,
        } => due_of_outcomes(
            alloc,
            program,
            *format,
            *limit,
            *threads,
            front.as_slice(),
            watcher,
        ),
        Settings::Check { format } => due_of_counts(alloc, program, *format),
        Settings::Graph { format } => due_of_graphs(alloc, program, lines, *format),
    }
}

/// What settings make of a program where they ask for no run on threads: outcomes by many threads, or what takes none.
/// A run on threads is refused, as a fault of the command line. It never waits.
pub(crate) fn due_of_search<T: Threads + Sync, P: Watcher>(
    rt: &T,
    alloc: Global,
    settings: &Settings,
    program: &Program,
    lines: &NodeLines,
    watcher: &mut P,
) -> Due
    ensures not_input { ¬ IsRefusedBy fault.Input result }
    ensures due { IsDueWithoutThreads (request_of settings.now) lines.now program.now result }
{
    match settings {
        Settings::Outcomes {
            format,
            limit,
            threads,
            front,
        } => {
            let search = Search {
                limit: *limit,
                threads: *threads,
                front: front.as_slice(),
            };
            due_by_threads(rt, alloc, program, *format, search, watcher)
        }
        Settings::Ask {
            questions,
            format,
            limit,
            threads,
            front,
        } => {
            let asked = Asked {
                questions: questions.as_slice(),
                format: *format,
                limit: *limit,
                threads: *threads,
            };
            due_of_questions_by_threads(rt, alloc, program, asked, front.as_slice(), watcher)
        }
        _ => due_of_program(alloc, settings, program, lines, watcher),
    }
}

/// What is due by the fault of a line that gave no settings: the text of help or of the version, or the fault.
pub(crate) fn due_of_fault(fault: LineFault) -> Due
    ensures due { IsDueOfFault fault result }
{
    match fault {
        LineFault::Refused => Due::Refused(Fault::CommandLine),
        LineFault::Help(text) => Due::Text(text),
        LineFault::Version(text) => Due::Text(text.into_bytes()),
        LineFault::Memory => Due::Refused(Fault::Memory),
    }
}
