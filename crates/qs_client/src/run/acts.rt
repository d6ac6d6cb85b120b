//! The next act of a client in a block, and what comes to it.

ghost use Rattle.std.specs.Prelude.{◌≡◌, ◌<◌, [], ℕ, length};
ghost use Rattle.qs_chunk.specs.audit.Batch.{batch};
ghost use Rattle.qs_syncset.specs.audit.Codes.{code_at};
ghost use Rattle.qs_client.specs.run.NextActs.{Wants};
ghost use Rattle.qs_client.specs.audit.rules.Client.{Settings};
ghost use Rattle.qs_client.specs.run.BetweenActs.{HasGot, HasTaken};

use crate::rules::Act;
use crate::run::holdings::Holdings;
use crate::run::run::Run;
use crate::run::stage::Stage;
use qs_chunk::Chunk;
use qs_graph::Node;
use qs_objects::{Held, Request, Ticket};
use qs_syncset::Code;

impl Run {
    /// The object came that the client waits for.
    pub fn take_object(&mut self, code: &Code, ticket: Ticket, held: Held)
        requires block { ticket.index < length code.now.blocks }
        requires asked { (settings : Settings) × (blocks : ℕ) × (begun : ℕ) × (most : ℕ) × (h : ℕ)
            × Wants (code_at code.now ticket.index) settings blocks ticket.index begun most self.old (Act.Await h) }
        ensures come { (settings : Settings) (blocks begun most h : ℕ) → settings.dynamic ≡ code.now.dynamic
            → Wants (code_at code.now ticket.index) settings blocks ticket.index begun most self.old (Act.Await h)
            → HasGot (code_at code.now ticket.index) settings ticket begun most held self.old self.new }
    {
        let Stage::Awaits(handler) = self.stage else {
            unreachable!();
        };
        self.holdings.put_held(handler, held);
        self.resume(code, ticket);
    }

    /// An empty chunk came for the command at which the client stands.
    pub fn take_chunk(&mut self, code: &Code, ticket: Ticket, chunk: Chunk<Request>)
        requires block { ticket.index < length code.now.blocks }
        requires room { 0 < chunk.capacity }
        requires asked { (settings : Settings) × (blocks : ℕ) × (begun : ℕ) × (most : ℕ) × (h : ℕ) × (chunk ≡ batch [] settings.size)
            × Wants (code_at code.now ticket.index) settings blocks ticket.index begun most self.old (Act.NeedChunk h) }
        ensures come { (settings : Settings) (blocks begun most h : ℕ) → settings.dynamic ≡ code.now.dynamic → chunk ≡ batch [] settings.size
            → Wants (code_at code.now ticket.index) settings blocks ticket.index begun most self.old (Act.NeedChunk h)
            → HasTaken (code_at code.now ticket.index) settings ticket begun most h self.old self.new }
    {
        let graph = code.graph(usize::from(ticket.index));
        graph.keeps_graph();
        let Node::Call(call) = graph.node(self.position.node()) else {
            unreachable!();
        };
        self.holdings.put_chunk(call.object, chunk);
        self.resume(code, ticket);
    }
}
