//! The start of all workers: the handlers, inside of that the clients, and inside of that the decision at the latch.

ghost use Rattle.std.specs.Prelude.{◌≡◌, ◌+◌, ◌^◌, ◌<◌, IfErr, IfOk, IfSome, reverse, true, vec_len};
ghost use Rattle.std.specs.List.{AllZip};
ghost use Rattle.qs_run.specs.Groups.{IsDecided, WasAskedFrom};
ghost use Rattle.qs_run.specs.Starts.{IsRefusedAStart, LetAllStart};
ghost use Rattle.qs_run.specs.Workers.{ClientHasRun, HandlerHasServed, HasFollowed};

use crate::client::run;
use crate::handler::{Gate, serve};
use crate::start::group::{Ended, Group, NewGroup, WorkerEnd, start_group};
use crate::start::latch::{Deciding, Decision, Latch};
use crate::starter::Starter;
use crate::worker::{ClientWorker, HandlerWorker, Ready};
use qs_desk::{Desk, DeskName, Front};
use std::sync::Wait;
use std::thread::Threads;

/// The handlers before a run, and room for them after it.
pub(crate) type NewHandlers<D> = NewGroup<Ready<HandlerWorker<D>>, HandlerWorker<D>>;

/// The clients before a run, and room for them after it.
pub(crate) type NewClients<D> = NewGroup<Ready<ClientWorker<D>>, ClientWorker<D>>;

/// What a run gave back: all workers after it, and the desk, which is closed.
#[derive(Drop)]
pub(crate) struct RunResults<D: DeskName> {
    pub(crate) handlers: Vec<HandlerWorker<D>>,
    pub(crate) clients: Vec<ClientWorker<D>>,
    pub(crate) desk: Desk<D>,
}

/// What a run that was refused gave back: all workers as they were.
#[derive(Drop)]
pub(crate) struct HeldWorkers<D: DeskName> {
    pub(crate) handlers: Vec<Ready<HandlerWorker<D>>>,
    pub(crate) clients: Vec<Ready<ClientWorker<D>>>,
}

// What a handler's thread does: it serves once it is let go.
fn handler_work<'l, D: DeskName, G: Gate, R: Wait>(
    rt: &R,
    gate: &G,
    latch: &'l Latch,
    ready: Ready<HandlerWorker<D>>,
) -> WorkerEnd<Ready<HandlerWorker<D>>, HandlerWorker<D>, Decision<'l>>
    ensures latch { result.1.of ≡ latch.entry.now }
    ensures followed { HasFollowed (HandlerHasServed D.program) result.1.value ready result.0 }
{
    let decision = latch.wait(rt);
    if !latch.lets_go(&decision) {
        return (Err(ready), decision);
    }
    let HandlerWorker {
        held,
        tickets,
        lanes,
    } = ready.into_worker();
    let (held, tickets, lanes) = serve(rt, gate, &mut (), held, tickets, lanes);
    let served = HandlerWorker {
        held,
        tickets,
        lanes,
    };
    (Ok(served), decision)
}

// What a client's thread does: it runs once it is let go.
fn client_work<'l, D: DeskName, R: Wait>(
    rt: &R,
    latch: &'l Latch,
    front: &Front<D>,
    ready: Ready<ClientWorker<D>>,
) -> WorkerEnd<Ready<ClientWorker<D>>, ClientWorker<D>, Decision<'l>>
    ensures latch { result.1.of ≡ latch.entry.now }
    ensures followed { HasFollowed ClientHasRun result.1.value ready result.0 }
{
    let decision = latch.wait(rt);
    if !latch.lets_go(&decision) {
        return (Err(ready), decision);
    }
    let ClientWorker { mind, share, lanes } = ready.into_worker();
    let (mind, share, lanes) = run(rt, mind, front, share, lanes);
    (Ok(ClientWorker { mind, share, lanes }), decision)
}

// The clients after a run, with the desk, which is closed; or as they were.
type ClientsEnd<'l, D, S> = Result<
    Ended<S, (Vec<ClientWorker<D>>, Desk<D>), Decision<'l>>,
    Ended<S, Vec<Ready<ClientWorker<D>>>, Decision<'l>>,
>;

// Decides whether the workers go, and gives this back with the decision.
fn decide<'l, S, X, R: Wait>(
    rt: &R,
    latch: &'l Latch,
    deciding: Deciding,
    go: bool,
    starter: S,
    back: X,
) -> Ended<S, X, Decision<'l>>
    requires latch { deciding ≡ latch.now }
    ensures back { (result.starter ≡ starter) × (result.back ≡ back) }
    ensures decided { (result.decision.of ≡ latch.entry.now) × (result.decision.value ≡ go) }
{
    let decision = latch.decide(rt, deciding, go);
    Ended {
        starter,
        back,
        decision,
    }
}

// Runs the clients from this number on, and closes the desk once they have ended; or tells all workers to end.
fn run_clients<'l, D: DeskName + Send + Sync, S: Starter + Drop, R: Threads + Wait + Sync>(
    rt: &R,
    latch: &'l Latch,
    deciding: Deciding,
    front: Front<D>,
    starter: S,
    from: Option<u32>,
    clients: NewClients<D>,
) -> ClientsEnd<'l, D, S>
    requires latch { deciding ≡ latch.now }
    requires few { IfSome from (λ number. number + vec_len clients.ready < 2 ^ 32) }
    ensures ran { IfOk result (λ r. AllZip ClientHasRun clients.ready.items r.back.0.items
        × (r.back.1.closed ≡ true)) }
    ensures kept { IfErr result (λ r. r.back.items ≡ clients.ready.items) }
    ensures asked { WasAskedFrom S.answers from (vec_len clients.ready) starter result }
    ensures decided { IsDecided (λ d. d.of) (λ d. d.value) latch.entry.now result }
{
    let Some(number) = from else {
        let NewGroup { ready, room: _ } = clients;
        return Err(decide(rt, latch, deciding, false, starter, ready));
    };
    let ended = start_group(
        rt,
        &|ready| client_work(rt, latch, &front, ready),
        latch,
        starter,
        number,
        clients,
        move |starter, from| match from {
            Some(_) => Ok(decide(rt, latch, deciding, true, starter, ())),
            None => Err(decide(rt, latch, deciding, false, starter, ())),
        },
    );
    match ended {
        Ok(Group { workers, inside }) => Ok(inside.giving((workers, front.close(rt)))),
        Err(Group { workers, inside }) => Err(inside.giving(workers)),
    }
}

/// Runs all workers, each on a thread of its own, once the starter has let it start: the handlers are started first,
/// and then the clients, in their order. No worker does anything before all are started. The clients reserve at the
/// front of the desk; when they have ended, the desk is closed, and then the handlers end too. An error says that the
/// start of a worker was refused, by the starter or by the system; then the threads that were started have ended, and
/// all workers come back as they were. The rooms of the two groups take what is given back, so nothing is allocated.
/// Waits for all threads.
pub(crate) fn run_workers<
    D: DeskName + Send + Sync,
    G: Gate,
    S: Starter + Drop,
    R: Threads + Wait + Sync,
>(
    rt: &R,
    gate: &G,
    starter: S,
    handlers: NewHandlers<D>,
    clients: NewClients<D>,
    front: Front<D>,
) -> (S, Result<RunResults<D>, HeldWorkers<D>>)
    requires few { vec_len handlers.ready + vec_len clients.ready < 2 ^ 32 }
    ensures served { IfOk result.1 (λ results. AllZip (HandlerHasServed D.program) handlers.ready.items
        results.handlers.items) }
    ensures ran { IfOk result.1 (λ results. AllZip ClientHasRun clients.ready.items results.clients.items) }
    ensures closed { IfOk result.1 (λ results. results.desk.closed ≡ true) }
    ensures all { IfOk result.1 (λ _. LetAllStart S.answers 0 (vec_len handlers.ready + vec_len clients.ready) starter
        result.0) }
    ensures kept { IfErr result.1 (λ held. (held.handlers.items ≡ handlers.ready.items)
        × (held.clients.items ≡ clients.ready.items)) }
    ensures refused { IfErr result.1 (λ _. IsRefusedAStart S.answers 0 (vec_len handlers.ready + vec_len clients.ready)
        starter result.0) }
{
    let (latch, deciding) = Latch::new();
    let latch = &latch;
    let clients = turned_group(clients);
    let ended = start_group(
        rt,
        &move |ready| handler_work(rt, gate, latch, ready),
        latch,
        starter,
        0,
        turned_group(handlers),
        move |starter: S, from: Option<u32>| -> ClientsEnd<'_, D, S>
            requires latch { deciding ≡ latch.now }
            requires few { IfSome from (λ number. number + vec_len clients.ready < 2 ^ 32) }
            ensures ran { IfOk result (λ r. AllZip ClientHasRun clients.ready.items r.back.0.items
                × (r.back.1.closed ≡ true)) }
            ensures kept { IfErr result (λ r. r.back.items ≡ clients.ready.items) }
            ensures asked { WasAskedFrom S.answers from (vec_len clients.ready) starter result }
            ensures decided { IsDecided (λ d. d.of) (λ d. d.value) latch.entry.now result }
        { run_clients(rt, latch, deciding, front, starter, from, clients) },
    );
    match ended {
        Ok(Group { workers, inside }) => {
            let (clients, desk) = inside.back;
            let results = RunResults {
                handlers: turned(workers),
                clients: turned(clients),
                desk,
            };
            (inside.starter, Ok(results))
        }
        Err(Group { workers, inside }) => {
            let handlers = turned(workers);
            let clients = turned(inside.back);
            (inside.starter, Err(HeldWorkers { handlers, clients }))
        }
    }
}

// The same in turned order.
fn turned<T>(mut items: Vec<T>) -> Vec<T>
    ensures turned { result.items ≡ reverse items.items }
    ensures many { vec_len result ≡ vec_len items }
{
    items.reverse();
    items
}

// The same group, its workers in turned order.
fn turned_group<V, W>(group: NewGroup<V, W>) -> NewGroup<V, W>
    ensures turned { result.ready.items ≡ reverse group.ready.items }
    ensures many { vec_len result.ready ≡ vec_len group.ready }
{
    let NewGroup { ready, room } = group;
    NewGroup {
        ready: turned(ready),
        room,
    }
}
