//! The run of a client through its blocks, and its quiet work within a block: what it does to its own values.

ghost use Rattle.std.specs.Prelude.{◌≡◌, ◌<◌, ◌≤◌, ℕ, IsSome, length, option_copied};
ghost use Rattle.qs_program.specs.audit.Values.{request_of};
ghost use Rattle.qs_graph.specs.audit.Walk.{at_node, with_value};
ghost use Rattle.qs_client.specs.run.Holdings.{chunk_at, holding_at};
ghost use Rattle.qs_client.specs.run.Running.{IsOpen, IsRunning, query, call, end_block, quiet_step, sync};
ghost use Rattle.qs_objects.specs.Traces.{AreEmptyAfter, trace_at};
ghost use Rattle.qs_program.specs.audit.Limits.{most_handlers, most_objects};
ghost use Rattle.qs_client.specs.audit.rules.Client.{Settings, ClientStage};
ghost use Rattle.qs_client.specs.run.ClientOfRun.{HasSettled};
ghost use Rattle.qs_client.specs.declared.run.stage.Stage.TheVariants as stages;

use crate::run::holdings::Holdings;
use crate::run::position::Position;
use crate::run::stage::Stage;
use qs_graph::{Graph, Node};
use qs_objects::{Event, Held, Ticket, Traces};
use qs_program::{Call, Locals};
use std::marker::Model;

/// A client's position in its block's graph, the objects that it holds and its open chunks, its traces, and its stage.
#[derive(Drop)]
pub struct Run {
    pub(crate) position: Position,
    pub(crate) holdings: Holdings,
    pub(crate) traces: Traces,
    pub(crate) stage: Stage,
}

impl Model for Run {
    ghost use Rattle.qs_client.specs.run.RunState.{RunState};

    ghost Value = { RunState };

    ghost view = { λ r. record { position = r.position; holdings = r.holdings; traces = r.traces; stage = r.stage } };
}

/// What a client goes by in a block: whether it tests what it holds as it comes to a synchronisation, and the block's
/// ticket.
#[derive(Clone, Copy)]
pub struct BlockContext {
    pub dynamic: bool,
    pub ticket: Ticket,
}

impl Run {
    /// The client's stage.
    pub fn stage(&self) -> Stage
        ensures value { result ≡ self.now.stage }
    {
        self.stage
    }

    /// The client's variables.
    pub fn locals(&self) -> Locals
        ensures value { result ≡ self.now.position.locals }
    {
        *self.position.locals()
    }

    /// The traces of all blocks.
    pub fn traces(&self) -> &Traces
        ensures value { result.now ≡ self.now.traces }
    {
        &self.traces
    }

    /// The object of a handler, where the client holds it.
    pub fn held(&self, handler: u8) -> Option<&Held>
        requires handler { handler < most_handlers }
        ensures value { option_copied result ≡ holding_at self.now.holdings handler }
    {
        self.holdings.held(handler)
    }

    /// Writes to all memory that was taken for traces, so that no block has to wait until the system finds it.
    pub fn touch(&mut self)
        ensures same { self.new ≡ self.old }
    {
        self.traces.touch();
    }

    /// The traces of all blocks, by move.
    pub fn into_traces(self) -> Traces
        ensures value { result ≡ self.traces }
    {
        let Run {
            position: _,
            holdings: _,
            traces,
            stage: _,
        } = self;
        traces
    }

    // A command: into the open chunk, where the object is not held. Answers whether another quiet move may follow.
    fn call(&mut self, block: usize, command: &Call, next: usize) -> bool
        requires object { command.now.object < most_objects }
        requires few { length command.now.args ≤ 3 }
        requires block { block < length self.old.traces }
        requires last { AreEmptyAfter self.old.traces block }
        requires room { 0 < (trace_at self.old.traces block).room }
        requires opened { (size : ℕ) × IsOpen size (chunk_at self.old.holdings command.now.object) }
        ensures new { self.new ≡ (call block (request_of self.old.position.locals command.now) (at_node self.old.position next) self.old).0 }
        ensures on { result ≡ (call block (request_of self.old.position.locals command.now) (at_node self.old.position next) self.old).1 }
    {
        let object = command.object;
        if self.holdings.holds(object) {
            return false;
        }
        if !self.holdings.has_chunk(object) {
            return false;
        }
        let request = self.position.request(command);
        let event = Event {
            request: request.copied(),
            reply: None,
        };
        self.position.go_to(next);
        self.traces.note(block, event);
        let is_full = self.holdings.push(object, request);
        if is_full {
            self.stage = Stage::Full(object);
        }
        !is_full
    }

    // A query on an object that the client holds: the client runs it itself, without a wait.
    fn query(&mut self, ticket: Ticket, variable: u8, call: &Call, next: usize)
        requires object { call.now.object < most_objects }
        requires few { length call.now.args ≤ 3 }
        requires block { ticket.index < length self.old.traces }
        requires last { AreEmptyAfter self.old.traces ticket.index }
        requires room { 0 < (trace_at self.old.traces ticket.index).room }
        requires held { IsSome (holding_at self.old.holdings call.now.object) }
        ensures new { self.new
            ≡ (query ticket (request_of self.old.position.locals call.now) (λ v. at_node (with_value self.old.position variable v) next) self.old).0 }
    {
        let object = call.object;
        let request = self.position.request(call);
        let reply = self.holdings.run(object, ticket, request.copied());
        self.traces
            .note(usize::from(ticket.index), Event { request, reply });
        self.position.assign(variable, reply.unwrap_or(0));
        self.position.go_to(next);
    }

    // A synchronisation, skipped only where the client tests and holds the object. Answers whether another quiet move
    // may follow.
    fn sync(&mut self, dynamic: bool, handler: u8, next: usize) -> bool
        requires handler { handler < most_handlers }
        ensures new { self.new ≡ (sync dynamic handler (at_node self.old.position next) self.old).0 }
        ensures on { result ≡ (sync dynamic handler (at_node self.old.position next) self.old).1 }
    {
        if dynamic && self.holdings.holds(handler) {
            self.position.go_to(next);
            return true;
        }
        false
    }

    // The end of the block.
    fn end_block(&mut self, reserved: &[u8])
        ensures new { self.new ≡ (end_block reserved.now self.old).0 }
    {
        self.stage = if reserved.is_empty() {
            Stage::Between
        } else {
            Stage::Leaves(0)
        };
    }

    /// One quiet move; answers whether another may follow.
    fn step(&mut self, graph: &Graph, reserved: &[u8], context: BlockContext) -> bool
        requires running { (size : ℕ) × (n : ℕ) × IsRunning graph.now.nodes size context.ticket.index n self.old }
        ensures new { self.new ≡ (quiet_step graph.now.nodes context reserved.now self.old).0 }
        ensures on { result ≡ (quiet_step graph.now.nodes context reserved.now self.old).1 }
    {
        graph.keeps_graph();
        self.holdings.are_8();
        let node = self.position.node();
        let next = graph.first_target(node);
        match graph.node(node) {
            Node::Call(call) => self.call(usize::from(context.ticket.index), call, next),
            Node::Query(variable, call) => {
                self.query(context.ticket, *variable, call, next);
                true
            }
            Node::Sync(name) => self.sync(context.dynamic, *name, next),
            Node::Exit => {
                self.end_block(reserved);
                false
            }
            Node::Entry => {
                self.position.go_to(next);
                true
            }
            Node::Local(action) => {
                self.position.act(*action, next);
                true
            }
            Node::Branch(choice) => {
                if self.position.chooses(*choice) {
                    self.position.go_to(next);
                    return true;
                }
                self.position.go_to(graph.second_target(node));
                true
            }
        }
    }

    /// All quiet moves, up to the next act.
    #[inline(never)]
    pub(crate) fn settle(&mut self, graph: &Graph, reserved: &[u8], context: BlockContext)
        requires stands { self.old.stage ≡ stages.Runs }
        requires running { (size : ℕ) × (n : ℕ) × IsRunning graph.now.nodes size context.ticket.index n self.old }
        ensures settled { (settings : Settings) (begun : ℕ) (p : ClientStage) (n : ℕ) → settings.dynamic ≡ context.dynamic
            → IsRunning graph.now.nodes settings.size context.ticket.index n self.old
            → HasSettled graph.now.nodes settings context.ticket reserved.now begun p n self.old self.new }
    {
        graph.keeps_graph();
        'moves: loop {
            if !self.step(graph, reserved, context) {
                return;
            }
        }
    }
}
