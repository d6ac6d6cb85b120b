//! Collecting the clients after a run.

ghost use Rattle.std.specs.Prelude.{◌≡◌, ◌<◌, ◌≤◌, length, map, vec_len, vec_capacity};
ghost use Rattle.std.specs.List.{AllByRecursion};
ghost use Rattle.qs_program.specs.audit.Limits.{most_clients, most_handlers};
ghost use Rattle.qs_run.specs.Collected.{AreAllJoined, AreAllPaired, AreLanesJoined, AreLanesPaired, IsBooked, worker_rows, without_lane_of, without_lanes_below};

use crate::collect::lanes::join_lanes;
use crate::worker::{ClientWorker, HandlerWorker};
use qs_desk::laws::booked;
use qs_desk::{Desk, DeskName};
use qs_played::ClientRows;

// Collects one client: its share is compared with the desk's order, its ends of lanes are joined with the handlers'
// ends, and its rows are moved out.
fn collect_client<D: DeskName>(
    desk: &mut Desk<D>,
    handlers: &mut [HandlerWorker<D>],
    number: usize,
    client: ClientWorker<D>,
) -> ClientRows
    requires number { number < most_clients }
    requires few { length handlers.old ≤ most_handlers }
    requires paired { AreLanesPaired client.lanes number handlers.old }
    ensures desk { desk.new ≡ desk.old }
    ensures booked { IsBooked desk.old.history client }
    ensures joined { AreLanesJoined client.lanes number handlers.old }
    ensures lanes_taken { handlers.new ≡ map (without_lane_of number) handlers.old }
    ensures rows { result ≡ worker_rows client }
{
    let ClientWorker {
        mind,
        mut share,
        lanes,
    } = client;
    booked(desk, &mut share);
    join_lanes(lanes, number, handlers);
    let (traces, entries, counts) = mind.into_rows();
    ClientRows::new(traces, entries, counts)
}

/// Collects all clients in their order. The handlers' ends of the lanes to them are taken out.
pub(crate) fn collect_clients<D: DeskName>(
    desk: &mut Desk<D>,
    handlers: &mut [HandlerWorker<D>],
    clients: Vec<ClientWorker<D>>,
    rows: Vec<ClientRows>,
) -> Vec<ClientRows>
    requires room { (vec_len rows ≡ 0) × (vec_len clients ≤ vec_capacity rows) }
    requires few { (length handlers.old ≤ most_handlers) × (vec_len clients ≤ most_clients) }
    requires paired { AreAllPaired handlers.old clients.items }
    ensures desk { desk.new ≡ desk.old }
    ensures booked { AllByRecursion (IsBooked desk.old.history) clients.items }
    ensures joined { AreAllJoined handlers.old clients.items }
    ensures lanes_taken { handlers.new ≡ map (without_lanes_below (vec_len clients)) handlers.old }
    ensures rows { result.items ≡ map worker_rows clients.items }
{
    let mut rows = rows;
    let mut number = 0;
    for client in clients {
        rows.push_reserved(collect_client(desk, handlers, number, client));
        number += 1;
    }
    rows
}
