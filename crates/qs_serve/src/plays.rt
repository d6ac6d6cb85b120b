// What a run has to write that is played by one thread: by the plain rules, or in the optimised machine.

ghost use Rattle.std.specs.Prelude.{◌≡◌, ◌⊎◌, ◌||◌, []};
ghost use Rattle.qs_report.specs.declared.faults.Fault.TheVariants as fault;
ghost use Rattle.qs_line.specs.audit.Line.{by_order, by_schedule, play, rules};
ghost use Rattle.qs_line.specs.Line.{plan_of};
ghost use Rattle.qs_serve.specs.Due.{IsDueOfProgram, IsOutOfMemory, IsRefusedBy, form_of};

use crate::due::{Due, due_of_list};
use crate::reports::{due_of_played, due_of_told};
use qs_check::Program;
use qs_chunk::ChunkSize;
use qs_core::{play, play_in_order, play_plain, play_plain_in_order};
use qs_line::{Part, Plan, ReportFormat, ReportStyle, actors_of, clients_of};
use qs_report::Fault;
use qs_steps::{Form, Wanted, play_order_told, play_told, rules_order_told, rules_told};
use qs_syncset::Mode;
use std::alloc::Global;

// Whether something is told beside a report.
fn is_told(style: ReportStyle) -> bool
    ensures value { result ≡ (style.steps || style.queues) }
{
    style.steps || style.queues
}

// What a style wants to be told beside a report.
fn wanted_by(style: ReportStyle) -> Wanted
    ensures steps { result.steps ≡ style.steps }
    ensures queues { result.queues ≡ style.queues }
    ensures form { result.form ≡ form_of style.format }
{
    let form = match style.format {
        ReportFormat::Text | ReportFormat::Svg => Form::Text,
        ReportFormat::Json => Form::Json,
    };
    Wanted {
        steps: style.steps,
        queues: style.queues,
        form,
    }
}

// A run by the plain rules, by a schedule.
fn due_of_scheduled_rules(
    alloc: Global,
    program: &Program,
    style: ReportStyle,
    picks: &[Part],
    rounds: u32,
) -> Due
    ensures not_input { ¬ IsRefusedBy fault.Input result }
    ensures due { IsOutOfMemory result ⊎ IsDueOfProgram (rules style (by_schedule rounds picks.now)) [] program.now result }
{
    let actors = match actors_of(alloc, program, picks) {
        Ok(actors) => actors,
        Err(fault) => return due_of_list(fault),
    };
    program.keeps_sound();
    if is_told(style) {
        let wanted = wanted_by(style);
        return match rules_told(alloc, program, actors.as_slice(), rounds, wanted) {
            Ok(told) => due_of_told(alloc, program, style, told),
            Err(fault) => Due::Refused(Fault::Play(fault)),
        };
    }
    match play_plain(alloc, program, actors.as_slice(), rounds) {
        Ok(played) => due_of_played(alloc, program, style, played),
        Err(fault) => Due::Refused(Fault::Play(fault)),
    }
}

// A run by the plain rules, one whole block after another.
fn due_of_ordered_rules(alloc: Global, program: &Program, style: ReportStyle, list: &[Part]) -> Due
    ensures not_input { ¬ IsRefusedBy fault.Input result }
    ensures due { IsOutOfMemory result ⊎ IsDueOfProgram (rules style (by_order list.now)) [] program.now result }
{
    let clients = match clients_of(alloc, program, list) {
        Ok(clients) => clients,
        Err(fault) => return due_of_list(fault),
    };
    if is_told(style) {
        let wanted = wanted_by(style);
        return match rules_order_told(alloc, program, clients.as_slice(), wanted) {
            Ok(told) => due_of_told(alloc, program, style, told),
            Err(fault) => Due::Refused(Fault::Order(fault)),
        };
    }
    match play_plain_in_order(alloc, program, clients.as_slice()) {
        Ok(played) => due_of_played(alloc, program, style, played),
        Err(fault) => Due::Refused(Fault::Order(fault)),
    }
}

/// A run by the plain rules.
pub(crate) fn due_of_rules(alloc: Global, program: &Program, style: ReportStyle, plan: &Plan) -> Due
    ensures not_input { ¬ IsRefusedBy fault.Input result }
    ensures due { IsOutOfMemory result ⊎ IsDueOfProgram (rules style (plan_of plan.now)) [] program.now result }
{
    match plan {
        Plan::Schedule { rounds, picks } => {
            due_of_scheduled_rules(alloc, program, style, picks.as_slice(), *rounds)
        }
        Plan::Order(list) => due_of_ordered_rules(alloc, program, style, list.as_slice()),
    }
}

// A run in the optimised machine, by a schedule.
fn due_of_scheduled_play(
    alloc: Global,
    program: &Program,
    style: ReportStyle,
    mode: Mode,
    chunk: ChunkSize,
    picks: &[Part],
    rounds: u32,
) -> Due
    ensures not_input { ¬ IsRefusedBy fault.Input result }
    ensures due { IsOutOfMemory result ⊎ IsDueOfProgram (play style mode chunk (by_schedule rounds picks.now)) [] program.now result }
{
    let actors = match actors_of(alloc, program, picks) {
        Ok(actors) => actors,
        Err(fault) => return due_of_list(fault),
    };
    program.keeps_sound();
    if is_told(style) {
        let wanted = wanted_by(style);
        return match play_told(
            alloc,
            program,
            mode,
            chunk,
            actors.as_slice(),
            rounds,
            wanted,
        ) {
            Ok(told) => due_of_told(alloc, program, style, told),
            Err(fault) => Due::Refused(Fault::Play(fault)),
        };
    }
    match play(alloc, program, mode, chunk, actors.as_slice(), rounds) {
        Ok(played) => due_of_played(alloc, program, style, played),
        Err(fault) => Due::Refused(Fault::Play(fault)),
    }
}

// A run in the optimised machine, one whole block after another.
fn due_of_ordered_play(
    alloc: Global,
    program: &Program,
    style: ReportStyle,
    mode: Mode,
    chunk: ChunkSize,
    list: &[Part],
) -> Due
    ensures not_input { ¬ IsRefusedBy fault.Input result }
    ensures due { IsOutOfMemory result ⊎ IsDueOfProgram (play style mode chunk (by_order list.now)) [] program.now result }
{
    let clients = match clients_of(alloc, program, list) {
        Ok(clients) => clients,
        Err(fault) => return due_of_list(fault),
    };
    if is_told(style) {
        let wanted = wanted_by(style);
        let clients = clients.as_slice();
        return match play_order_told(alloc, program, mode, chunk, clients, wanted) {
            Ok(told) => due_of_told(alloc, program, style, told),
            Err(fault) => Due::Refused(Fault::Order(fault)),
        };
    }
    match play_in_order(alloc, program, mode, chunk, clients.as_slice()) {
        Ok(played) => due_of_played(alloc, program, style, played),
        Err(fault) => Due::Refused(Fault::Order(fault)),
    }
}

/// A run in the optimised machine.
pub(crate) fn due_of_play(
    alloc: Global,
    program: &Program,
    style: ReportStyle,
    mode: Mode,
    chunk: ChunkSize,
    plan: &Plan,
) -> Due
    ensures not_input { ¬ IsRefusedBy fault.Input result }
    ensures due { IsOutOfMemory result ⊎ IsDueOfProgram (play style mode chunk (plan_of plan.now)) [] program.now result }
{
    match plan {
        Plan::Schedule { rounds, picks } => {
            due_of_scheduled_play(
                alloc,
                program,
                style,
                mode,
                chunk,
                picks.as_slice(),
                *rounds,
            )
        }
        Plan::Order(list) => {
            due_of_ordered_play(alloc, program, style, mode, chunk, list.as_slice())
        }
    }
}
