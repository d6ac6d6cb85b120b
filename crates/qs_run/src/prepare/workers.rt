//! The workers of a run, made of its parts and of what the desk has for each of them.

ghost use Rattle.std.specs.Prelude.{◌≡◌, ℕ, ◌≤◌, [], length, map, vec_capacity, IfOk};
ghost use Rattle.qs_program.specs.Sound.{IsSound};
ghost use Rattle.qs_desk.specs.TicketQueues.{tickets_at};
ghost use Rattle.qs_desk.specs.Places.{places, share_at};
ghost use Rattle.qs_run.specs.Prepared.{AreRunParts, IsClientOf, IsHandlerOf, IsNewIn, IsNewOut, ever_reserves, in_at, out_at};
ghost use Rattle.qs_run.specs.Workers.{AreReady, IsListOf, IsMindAtStart, IsObjectAtStart};

use crate::client::ClientLanes;
use crate::handler::HandlerLanes;
use crate::prepare::RunParts;
use crate::worker::{ClientWorker, HandlerWorker, Ready};
use qs_chunk::ChunkSize;
use qs_client::Mind;
use qs_desk::{DeskName, Share, Tickets};
use qs_objects::Held;
use qs_program::{MOST_CLIENTS, MOST_HANDLERS};
use qs_syncset::Mode;
use std::alloc::{AllocError, Global};

// Empty vectors with room for so many handlers and clients.
fn empty_workers<D: DeskName>(
    alloc: Global,
    handlers: usize,
    clients: usize,
) -> Result<(Vec<Ready<HandlerWorker<D>>>, Vec<Ready<ClientWorker<D>>>), AllocError>
    ensures empty { IfOk result (λ workers. (workers.0.items ≡ []) × (workers.1.items ≡ [])) }
    ensures room { IfOk result (λ workers. (handlers ≤ vec_capacity workers.0) × (clients ≤ vec_capacity workers.1)) }
{
    let handlers = Vec::with_capacity(alloc, handlers)?;
    let clients = Vec::with_capacity(alloc, clients)?;
    Ok((handlers, clients))
}

// Adds the worker of each handler: its object, its queue of tickets, and its ends of lanes.
fn add_handlers<D: DeskName>(
    workers: &mut Vec<Ready<HandlerWorker<D>>>,
    helds: Vec<Held>,
    ins: Vec<HandlerLanes>,
    tickets: [Option<Tickets<D>>; MOST_HANDLERS],
)
    requires sound { IsSound D.program }
    requires room { (workers.old.items ≡ []) × (length helds.items ≤ vec_capacity workers.old) }
    requires helds { IsListOf (length D.program.objects) (IsObjectAtStart D.program) helds.items }
    requires rows { length ins.items ≡ length D.program.objects }
    requires ins { (c h : ℕ) → IsNewIn (ever_reserves D.program c h) (in_at ins.items c h) }
    requires tickets { tickets ≡ map (tickets_at D.program) places }
    ensures workers { IsListOf (length D.program.objects) (IsHandlerOf D.program ins.items) workers.new.items }
{
    let count = helds.len();
    let mut tickets_left = tickets;
    let mut helds_left = helds.into_iter();
    let mut lanes_left = ins.into_iter();
    for handler in 0..count {
        let Some(held) = helds_left.next() else {
            unreachable!()
        };
        let Some(lanes) = lanes_left.next() else {
            unreachable!()
        };
        let Some(tickets) = tickets_left[handler].take() else {
            unreachable!()
        };
        workers.push_reserved(Ready::new(HandlerWorker {
            held,
            tickets,
            lanes,
        }));
    }
}

// Adds the worker of each client: its mind, its share of the desk, and its ends of lanes. The mode and the size are
// named for the contract.
fn add_clients<D: DeskName>(
    workers: &mut Vec<Ready<ClientWorker<D>>>,
    minds: Vec<Mind>,
    outs: Vec<ClientLanes>,
    shares: [Option<Share<D>>; MOST_CLIENTS],
    mode: Mode,
    size: ChunkSize,
)
    requires sound { IsSound D.program }
    requires room { (workers.old.items ≡ []) × (length minds.items ≤ vec_capacity workers.old) }
    requires minds { IsListOf (length D.program.clients) (IsMindAtStart D.program mode size) minds.items }
    requires rows { length outs.items ≡ length D.program.clients }
    requires outs { (c h : ℕ) → IsNewOut size (ever_reserves D.program c h) (out_at outs.items c h) }
    requires shares { shares ≡ map (share_at D.program) places }
    ensures workers { IsListOf (length D.program.clients) (IsClientOf D.program mode size outs.items) workers.new.items }
{
    let _mode = mode;
    let _size = size;
    let count = minds.len();
    let mut shares_left = shares;
    let mut minds_left = minds.into_iter();
    let mut lanes_left = outs.into_iter();
    for client in 0..count {
        let Some(mind) = minds_left.next() else {
            unreachable!()
        };
        let Some(lanes) = lanes_left.next() else {
            unreachable!()
        };
        let Some(share) = shares_left[client].take() else {
            unreachable!()
        };
        workers.push_reserved(Ready::new(ClientWorker { mind, share, lanes }));
    }
}

/// Makes all workers of a run, of its parts and of what the desk has for each client and each handler: one for each
/// handler and one for each client, in their order, all of them ready. An error says that an allocation failed; then
/// all is dropped.
pub(crate) fn make_workers<D: DeskName>(
    alloc: Global,
    parts: RunParts,
    shares: [Option<Share<D>>; MOST_CLIENTS],
    tickets: [Option<Tickets<D>>; MOST_HANDLERS],
    mode: Mode,
    size: ChunkSize,
) -> Result<(Vec<Ready<HandlerWorker<D>>>, Vec<Ready<ClientWorker<D>>>), AllocError>
    requires sound { IsSound D.program }
    requires parts { AreRunParts D.program mode size parts }
    requires shares { shares ≡ map (share_at D.program) places }
    requires tickets { tickets ≡ map (tickets_at D.program) places }
    ensures ready { IfOk result (λ workers. AreReady D.program mode size workers.0.items workers.1.items) }
{
    let (mut handlers, mut clients) = empty_workers(alloc, parts.helds.len(), parts.minds.len())?;
    let RunParts {
        minds,
        helds,
        outs,
        ins,
    } = parts;
    add_handlers(&mut handlers, helds, ins, tickets);
    add_clients(&mut clients, minds, outs, shares, mode, size);
    Ok((handlers, clients))
}
