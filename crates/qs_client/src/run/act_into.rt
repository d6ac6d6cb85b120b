//! The next act of a client, put where another act lay: what an act carries is large, and moves once.

ghost use Rattle.std.specs.Prelude.{◌≡◌, ◌<◌, ℕ, None, is_some, true, false, length};
ghost use Rattle.qs_program.specs.audit.Limits.{most_handlers};
ghost use Rattle.qs_chunk.specs.declared.parcel.Parcel.TheVariants as parcels;
ghost use Rattle.qs_graph.specs.audit.Walk.{move};
ghost use Rattle.qs_syncset.specs.audit.Codes.{code_at};
ghost use Rattle.qs_client.specs.run.NextActs.{HasActed, IsInside, act_by, clear, send_full, holdings_by, with_holdings, without};
ghost use Rattle.qs_client.specs.audit.rules.Client.{Settings};
ghost use Rattle.qs_client.specs.run.Holdings.{chunk_at, holding_at, with_chunk, with_held};
ghost use Rattle.qs_client.specs.run.Running.{IsLoud};
ghost use Rattle.qs_client.specs.run.BetweenActs.{IsStanding};
ghost use Rattle.qs_client.specs.declared.rules.act.Act.{Act as ActShape};

use crate::rules::Act;
use crate::run::holdings::Holdings;
use crate::run::run::Run;
use crate::run::stage::Stage;
use qs_chunk::Parcel;
use qs_graph::{Graph, Node};
use qs_objects::Ticket;
use qs_syncset::Code;

// An act takes the place of another one. Of one that sends nothing, nothing is to be dropped: so both branches do the
// same.
#[inline(always)]
fn put(act: &mut Act, next: Act)
    ensures put { act.new ≡ next }
{
    if let Act::Send(_, _) = act {
        *act = next;
    } else {
        *act = next;
    }
}

impl Holdings {
    // The object goes home, where it is held.
    #[inline(always)]
    fn send_home(&mut self, handler: u8, act: &mut Act)
        requires handler { handler < most_handlers }
        ensures goes { is_some (holding_at self.old handler) ≡ true → (other : ActShape) → act.new ≡ clear self.old handler other }
        ensures rest { self.new ≡ with_held self.old handler None }
    {
        if let Some(held) = self.take_held(handler) {
            put(act, Act::Send(handler, Parcel::Home(held)));
        }
    }

    // The open chunk goes, where there is one and the object is not held.
    #[inline(always)]
    fn send_chunk(&mut self, handler: u8, act: &mut Act)
        requires handler { handler < most_handlers }
        ensures goes { is_some (holding_at self.old handler) ≡ false → is_some (chunk_at self.old handler) ≡ true
            → (other : ActShape) → act.new ≡ clear self.old handler other }
        ensures rest { self.new ≡ with_chunk self.old handler None }
    {
        if let Some(chunk) = self.take_chunk(handler) {
            put(act, Act::Send(handler, Parcel::Work(chunk)));
        }
    }

    // What goes to a handler first: a held object goes home; else an open chunk goes. Answers whether there was either.
    #[inline(always)]
    fn clear(&mut self, handler: u8, act: &mut Act) -> bool
        requires handler { handler < most_handlers }
        ensures goes { result ≡ true → (other : ActShape) → act.new ≡ clear self.old handler other }
        ensures nothing { result ≡ false → (other : ActShape) → other ≡ clear self.old handler other }
        ensures rest { self.new ≡ without self.old handler }
    {
        if self.holds(handler) {
            self.send_home(handler, act);
            return true;
        }
        if self.has_chunk(handler) {
            self.send_chunk(handler, act);
            return true;
        }
        false
    }

    // What goes to a command's handler first, or an empty chunk is wanted.
    fn clear_or_chunk(&mut self, object: u8, act: &mut Act)
        requires handler { object < most_handlers }
        ensures act { act.new ≡ clear self.old object (Act.NeedChunk object) }
        ensures rest { self.new ≡ without self.old object }
    {
        if !self.clear(object, act) {
            put(act, Act::NeedChunk(object));
        }
    }

    // What goes to a handler before a Sync, or the Sync.
    fn clear_or_sync(&mut self, name: u8, act: &mut Act)
        requires handler { name < most_handlers }
        ensures act { act.new ≡ clear self.old name (Act.Send name parcels.Sync) }
        ensures rest { self.new ≡ without self.old name }
    {
        if !self.clear(name, act) {
            put(act, Act::Send(name, Parcel::Sync));
        }
    }

    // What goes to a handler first, or the end of the block.
    fn clear_or_end(&mut self, handler: u8, act: &mut Act)
        requires handler { handler < most_handlers }
        ensures act { act.new ≡ clear self.old handler (Act.Send handler parcels.End) }
        ensures rest { self.new ≡ without self.old handler }
    {
        if !self.clear(handler, act) {
            put(act, Act::Send(handler, Parcel::End));
        }
    }

    // A full chunk goes.
    fn send_full(&mut self, handler: u8, act: &mut Act)
        requires handler { handler < most_handlers }
        ensures act { act.new ≡ send_full handler (chunk_at self.old handler) }
        ensures rest { self.new ≡ with_chunk self.old handler None }
    {
        match self.take_chunk(handler) {
            Some(chunk) => put(act, Act::Send(handler, Parcel::Work(chunk))),
            None => put(act, Act::Finished),
        }
    }
}

impl Run {
    // The act at a command or a synchronisation.
    fn act_at_node(&mut self, graph: &Graph, act: &mut Act)
        requires inside { self.old.position.node < length graph.now.nodes }
        requires loud { IsLoud (move graph.now.nodes self.old.position) }
        ensures act { act.new ≡ act_by self.old.holdings (move graph.now.nodes self.old.position) }
        ensures rest { self.new ≡ with_holdings self.old (holdings_by self.old.holdings (move graph.now.nodes self.old.position)) }
    {
        graph.keeps_graph();
        match graph.node(self.position.node()) {
            Node::Call(call) => self.holdings.clear_or_chunk(call.object, act),
            Node::Sync(name) => self.holdings.clear_or_sync(*name, act),
            _ => unreachable!(),
        }
    }

    /// The next act of a client that has begun so many blocks, put where another act lay. What the act carries goes
    /// out.
    pub fn act_into(&mut self, code: &Code, ticket: Ticket, begun: usize, act: &mut Act)
        requires inside { IsInside self.old.stage ticket.index (length code.now.blocks) }
        requires standing { (size : ℕ) × (most : ℕ) × IsStanding (code_at code.now ticket.index) size ticket.index most self.old self.old.stage }
        ensures acted { (settings : Settings) (most : ℕ)
            → IsStanding (code_at code.now ticket.index) settings.size ticket.index most self.old self.old.stage
            → HasActed (code_at code.now ticket.index) settings (length code.now.blocks) ticket.index begun most act.new self.old self.new }
    {
        code.keeps_code();
        let block = usize::from(ticket.index);
        match self.stage {
            Stage::Between => {
                if begun < code.blocks() {
                    put(act, Act::Reserve);
                } else {
                    put(act, Act::Finished);
                }
            }
            Stage::Runs => {
                let graph = code.graph(block);
                graph.keeps_graph();
                self.act_at_node(graph, act);
            }
            Stage::Full(handler) => self.holdings.send_full(handler, act),
            Stage::Awaits(handler) => put(act, Act::Await(handler)),
            Stage::Leaves(place) => {
                let handler = code.reserved(block)[place];
                self.holdings.clear_or_end(handler, act);
            }
        }
    }
}
