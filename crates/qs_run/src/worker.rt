//! Workers: a client or a handler with all that its thread needs.

ghost use Rattle.std.specs.Prelude.{◌≡◌};

use crate::client::ClientLanes;
use crate::handler::HandlerLanes;
use qs_client::Mind;
use qs_desk::{DeskName, Share, Tickets};
use qs_objects::Held;
use std::marker::Model;

/// What has a thread of its own in a run: a client or a handler with all that its thread needs.
pub(crate) trait Worker: Drop {
    /// Its thread may start.
    ghost is_ready: { Self → Type 0 };

    /// Its thread has done its work, from the worker before to the worker after.
    ghost has_worked: { Self → Self → Type 0 };
}

/// What a thread takes and what it makes of it.
pub(crate) trait Becomes<W>: Drop {
    /// The one has become the other.
    ghost becomes: { Self → W → Type 0 };
}

/// A handler with its object and journal, its queue of tickets, and its end of the lane from each client that has a
/// lane to it.
#[derive(Drop)]
pub(crate) struct HandlerWorker<D: DeskName> {
    pub(crate) held: Held,
    pub(crate) tickets: Tickets<D>,
    pub(crate) lanes: HandlerLanes,
}

/// A client with its mind, its share of the desk, and its end of the lane to each handler that it has a lane to.
#[derive(Drop)]
pub(crate) struct ClientWorker<D: DeskName> {
    pub(crate) mind: Mind,
    pub(crate) share: Share<D>,
    pub(crate) lanes: ClientLanes,
}

impl<D: DeskName> Worker for HandlerWorker<D> {
    ghost use Rattle.qs_run.specs.Workers.{HandlerHasServed, IsHandlerReady};

    ghost is_ready = { IsHandlerReady D.program };

    ghost has_worked = { HandlerHasServed D.program };
}

impl<D: DeskName> Worker for ClientWorker<D> {
    ghost use Rattle.qs_run.specs.Workers.{ClientHasRun, IsClientReady};

    ghost is_ready = { IsClientReady D.program };

    ghost has_worked = { ClientHasRun };
}

/// A worker before the run, which is ready.
pub(crate) struct Ready<W: Worker> {
    worker: W,
}

impl<W: Worker> Drop for Ready<W> {
    fn drop(self) {
        let Ready { worker: _ } = self;
    }
}

impl<W: Worker> Model for Ready<W> {
    ghost Value = { W };

    ghost view = { λ r. r.worker };

    ghost invariant = { λ r. W.is_ready r.worker };
}

impl<W: Worker> Ready<W> {
    /// Takes a worker that is ready.
    pub(crate) fn new(worker: W) -> Ready<W>
        requires ready { W.is_ready worker }
        ensures worker { result ≡ worker }
    {
        Ready { worker }
    }

    /// The worker, which is ready.
    pub(crate) fn into_worker(self) -> W
        ensures worker { result ≡ self }
        ensures ready { W.is_ready result }
    {
        let Ready { worker } = self;
        worker
    }
}

impl<W: Worker> Becomes<W> for Ready<W> {
    ghost becomes = { W.has_worked };
}
