// How many synchronisations each mode sends for the blocks of an order.

ghost use Rattle.std.specs.Prelude.{◌≡◌, ◌⊎◌, [], map, IfErr, IfOk};
ghost use Rattle.qs_meaning.specs.audit.Serial.{IsLegal};
ghost use Rattle.qs_serial.specs.audit.NamedOrders.{order_of};
ghost use Rattle.qs_core_laws.specs.orders.CoreOrders.{IsPlayedInOrderOn};
ghost use Rattle.qs_played.specs.SyncSums.{AreSyncsCounted};
ghost use Rattle.qs_report.specs.SyncTable.{IsExactTable};
ghost use Rattle.qs_report.specs.declared.faults.Fault.TheVariants as fault;
ghost use Rattle.qs_line.specs.audit.Line.{by_order, by_schedule, syncs};
ghost use Rattle.qs_line.specs.Line.{plan_of};
ghost use Rattle.qs_serve.specs.Due.{IsDueOfProgram, IsOutOfMemory, IsRefusedBy, IsTableDue, IsTabled, IsUnordered, client_of, default_chunk};

use crate::due::{Due, due_of_bytes, due_of_list};
use qs_check::Program;
use qs_chunk::ChunkSize;
use qs_core::{play, play_in_order};
use qs_json::syncs_json;
use qs_line::{Format, Part, Plan, actors_of, clients_of};
use qs_objects::Ticket;
use qs_played::Played;
use qs_report::{Fault, SyncTable, syncs_text};
use qs_serial::OrderFault;
use qs_syncset::Mode;
use std::alloc::{AllocError, Global};

const DEFAULT_CHUNK: u8 = 8;

// Chunks of as many requests as by default.
fn default_size() -> ChunkSize
    ensures size { result ≡ default_chunk }
{
    match ChunkSize::new(DEFAULT_CHUNK) {
        Some(size) => size,
        None => unreachable!(),
    }
}

// A run in a mode, of the blocks that some clients name.
fn run_in(
    alloc: Global,
    program: &Program,
    mode: Mode,
    clients: &[u8],
) -> Result<Played, OrderFault>
    ensures legal { IfOk result (λ played. IsLegal program.now (order_of clients.now)) }
    ensures played { IfOk result (IsPlayedInOrderOn program.now mode default_chunk (order_of clients.now)) }
    ensures order { IfOk result (λ played. played.order ≡ order_of clients.now) }
    ensures counted { IfOk result (AreSyncsCounted program.now mode) }
    ensures fault { IfErr result (IsUnordered program.now clients.now) }
{
    match play_in_order(alloc, program, mode, default_size(), clients) {
        Ok(played) => Ok(played),
        Err(fault) => Err(fault),
    }
}

// The table of the blocks that some clients name: of four runs, one in each mode.
fn table_of(alloc: Global, program: &Program, clients: &[u8]) -> Result<SyncTable, OrderFault>
    ensures legal { IfOk result (λ table. IsLegal program.now (order_of clients.now)) }
    ensures exact { IfOk result (IsExactTable program.now (order_of clients.now)) }
    ensures fault { IfErr result (IsUnordered program.now clients.now) }
{
    let none = run_in(alloc, program, Mode::Plain, clients)?;
    let dynamic = run_in(alloc, program, Mode::Dynamic, clients)?;
    let fixed = run_in(alloc, program, Mode::Static, clients)?;
    let both = run_in(alloc, program, Mode::Both, clients)?;
    Ok(SyncTable::new(program, none, dynamic, fixed, both))
}

// The text of a table, in a format.
fn due_of_text(alloc: Global, program: &Program, format: Format, table: SyncTable) -> Due
    ensures due { IsTabled format program.now table result }
{
    let text = match format {
        Format::Text => syncs_text(alloc, program, &table),
        Format::Json => syncs_json(alloc, program, &table),
    };
    drop(table);
    due_of_bytes(text)
}

// The table of the blocks that some clients name, in a format.
fn due_of_table(alloc: Global, program: &Program, format: Format, clients: &[u8]) -> Due
    ensures not_input { ¬ IsRefusedBy fault.Input result }
    ensures due { IsTableDue format program.now clients.now result }
{
    match table_of(alloc, program, clients) {
        Ok(table) => due_of_text(alloc, program, format, table),
        Err(fault) => Due::Refused(Fault::Order(fault)),
    }
}

// The clients of an order.
fn clients_in(alloc: Global, order: &[Ticket]) -> Result<Vec<u8>, AllocError>
    ensures clients { IfOk result (λ clients. clients.items ≡ map client_of order.now) }
{
    order.iter().map(|ticket| ticket.client).collect(alloc)
}

// The table of the blocks that a run has shown, in their order.
fn due_of_shown(alloc: Global, program: &Program, format: Format, played: Played) -> Due
    ensures not_input { ¬ IsRefusedBy fault.Input result }
    ensures due { IsTableDue format program.now (map client_of played.order) result }
{
    let clients = clients_in(alloc, played.order());
    drop(played);
    match clients {
        Ok(clients) => due_of_table(alloc, program, format, clients.as_slice()),
        Err(_) => Due::Refused(Fault::Memory),
    }
}

// The table of the order of a schedule.
fn due_of_scheduled_syncs(
    alloc: Global,
    program: &Program,
    format: Format,
    picks: &[Part],
    rounds: u32,
) -> Due
    ensures not_input { ¬ IsRefusedBy fault.Input result }
    ensures due { IsOutOfMemory result ⊎ IsDueOfProgram (syncs format (by_schedule rounds picks.now)) [] program.now result }
{
    let actors = match actors_of(alloc, program, picks) {
        Ok(actors) => actors,
        Err(fault) => return due_of_list(fault),
    };
    program.keeps_sound();
    let size = default_size();
    match play(alloc, program, Mode::Both, size, actors.as_slice(), rounds) {
        Ok(played) => due_of_shown(alloc, program, format, played),
        Err(fault) => Due::Refused(Fault::Play(fault)),
    }
}

// The table of the order that a list names.
fn due_of_ordered_syncs(alloc: Global, program: &Program, format: Format, list: &[Part]) -> Due
    ensures not_input { ¬ IsRefusedBy fault.Input result }
    ensures due { IsOutOfMemory result ⊎ IsDueOfProgram (syncs format (by_order list.now)) [] program.now result }
{
    match clients_of(alloc, program, list) {
        Ok(clients) => due_of_table(alloc, program, format, clients.as_slice()),
        Err(fault) => due_of_list(fault),
    }
}

/// How many synchronisations each mode sends for each block of an order and each object of its list, in a format.
pub(crate) fn due_of_syncs(alloc: Global, program: &Program, format: Format, plan: &Plan) -> Due
    ensures not_input { ¬ IsRefusedBy fault.Input result }
    ensures due { IsOutOfMemory result ⊎ IsDueOfProgram (syncs format (plan_of plan.now)) [] program.now result }
{
    match plan {
        Plan::Schedule { rounds, picks } => {
            due_of_scheduled_syncs(alloc, program, format, picks.as_slice(), *rounds)
        }
        Plan::Order(list) => due_of_ordered_syncs(alloc, program, format, list.as_slice()),
    }
}
