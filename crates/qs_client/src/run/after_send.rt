//! What a client in a block does once a parcel was sent.

ghost use Rattle.std.specs.Prelude.{◌≡◌, ◌<◌, ℕ, IsTrue, List, false, length};
ghost use Rattle.qs_syncset.specs.audit.Codes.{code_at};
ghost use Rattle.qs_client.specs.audit.rules.Client.{ClientStage, Settings};
ghost use Rattle.qs_client.specs.run.ClientOfRun.{HasSettled};
ghost use Rattle.qs_client.specs.run.BetweenActs.{HasSent, IsOutgoingAt, IsStanding, leave_next, await_object};
ghost use Rattle.qs_client.specs.run.Running.{IsRunning, quiet_step};
ghost use Rattle.qs_client.specs.declared.run.run.BlockContext.{BlockContext};

use crate::rules::Outgoing;
use crate::run::run::{BlockContext, Run};
use crate::run::stage::Stage;
use qs_graph::{Graph, Node};
use qs_objects::Ticket;
use qs_syncset::Code;

impl Run {
    // Whether the client can make no quiet move, as at a command that may go into no chunk, or at a synchronisation
    // that is not skipped.
    #[inline(always)]
    pub(crate) fn rests(&self, graph: &Graph, dynamic: bool) -> bool
        requires inside { self.now.position.node < length graph.now.nodes }
        ensures still { IsTrue result → (context : BlockContext) (reserved : List ℕ) → context.dynamic ≡ dynamic
            → quiet_step graph.now.nodes context reserved self.now ≡ (self.now, false) }
    {
        graph.keeps_graph();
        match graph.node(self.position.node()) {
            Node::Call(call) => !self.holdings.takes_requests(call.object),
            Node::Sync(name) => !self.holdings.skips(dynamic, *name),
            _ => false,
        }
    }

    /// The client goes on, once the object or the chunk that was in its way has gone.
    #[inline(always)]
    pub(crate) fn resume(&mut self, code: &Code, ticket: Ticket)
        requires block { ticket.index < length code.now.blocks }
        requires running { (size : ℕ) × (n : ℕ) × IsRunning (code_at code.now ticket.index).graph size ticket.index n self.old }
        ensures settled { (settings : Settings) (begun : ℕ) (p : ClientStage) (n : ℕ) → settings.dynamic ≡ code.now.dynamic
            → IsRunning (code_at code.now ticket.index).graph settings.size ticket.index n self.old
            → HasSettled (code_at code.now ticket.index).graph settings ticket (code_at code.now ticket.index).reserved begun p n self.old
            self.new }
    {
        self.stage = Stage::Runs;
        let block = usize::from(ticket.index);
        let context = BlockContext {
            dynamic: code.is_dynamic(),
            ticket,
        };
        self.settle(code.graph(block), code.reserved(block), context);
    }

    /// After a Sync was sent: the object is awaited.
    pub(crate) fn await_object(&mut self, graph: &Graph)
        requires inside { self.old.position.node < length graph.now.nodes }
        ensures new { self.new ≡ await_object graph.now.nodes self.old }
    {
        let node = self.position.node();
        if let Node::Sync(name) = graph.node(node) {
            self.position.go_to(graph.first_target(node));
            self.stage = Stage::Awaits(*name);
        }
    }

    /// After an End was sent: the next handler of the list is left, or the block has ended.
    pub(crate) fn leave_next(&mut self, handlers: usize)
        ensures new { self.new ≡ leave_next handlers self.old }
    {
        if let Stage::Leaves(place) = self.stage {
            self.stage = if place < handlers && place + 1 < handlers {
                Stage::Leaves(place + 1)
            } else {
                Stage::Between
            };
        }
    }

    /// What the client does once its last act was sent, up to its next act.
    pub fn after_send(&mut self, code: &Code, ticket: Ticket, outgoing: Outgoing)
        requires block { ticket.index < length code.now.blocks }
        requires standing { (size : ℕ) × (most : ℕ)
            × IsStanding (code_at code.now ticket.index) size ticket.index most self.old self.old.stage }
        requires gone { IsOutgoingAt (code_at code.now ticket.index).graph outgoing self.old self.old.stage }
        ensures sent { (settings : Settings) (begun most : ℕ) → settings.dynamic ≡ code.now.dynamic
            → IsStanding (code_at code.now ticket.index) settings.size ticket.index most self.old self.old.stage
            → HasSent (code_at code.now ticket.index) settings ticket begun most outgoing self.old self.new }
    {
        let block = usize::from(ticket.index);
        let graph = code.graph(block);
        graph.keeps_graph();
        match outgoing {
            Outgoing::Nothing => {}
            Outgoing::Value => match self.stage {
                Stage::Runs => {
                    if self.rests(graph, code.is_dynamic()) {
                        return;
                    }
                    self.resume(code, ticket);
                }
                Stage::Full(_) => self.resume(code, ticket),
                Stage::Awaits(_) => {}
                Stage::Leaves(_) => {}
                Stage::Between => {}
            },
            Outgoing::Sync(_) => {
                if let Stage::Runs = self.stage {
                    self.await_object(graph);
                }
            }
            Outgoing::End => self.leave_next(code.reserved(block).len()),
        }
    }
}
