//! A client's mind: what its run keeps, with its code, its tickets and its counts.

ghost use Rattle.std.specs.Prelude.{◌≡◌, ◌<◌, ℕ, [], IfOk, IsErr, length, option_copied, slice_index_or};
ghost use Rattle.qs_chunk.specs.audit.Batch.{batch};
ghost use Rattle.qs_client.specs.audit.ClientModel.{lists_of_code, tally, mind_after_begin, mind_after_chunk, finish, fresh_mind, mind_after_object, is_between, next_act, next_mind};
ghost use Rattle.qs_client.specs.ClientModel.{Asks, blocks_ended};
ghost use Rattle.qs_sync_counts.specs.audit.SyncRows.{fresh_rows};
ghost use Rattle.qs_sync_counts.specs.SyncRows.{AreFew, all_counts, counts_state, greatest_count};
ghost use Rattle.qs_client.specs.run.NextActs.{SendsNothing};
ghost use Rattle.qs_client.specs.MindState.{IsMind, mind_of};
ghost use Rattle.qs_objects.specs.audit.Rows.{join_rows};
ghost use Rattle.qs_objects.specs.Traces.{events_of};
ghost use Rattle.qs_program.specs.audit.Limits.{most_handlers};

use crate::rules::{Act, Outgoing};
use crate::run::{Run, Stage};
use qs_chunk::{Chunk, ChunkSize};
use qs_objects::{Event, Held, Request, Ticket, Traces};
use qs_program::{Locals, MOST_HANDLERS};
use qs_sync_counts::SyncCounts;
use qs_syncset::Code;
use std::alloc::{AllocError, Global};
use std::marker::Model;

/// A client's decisions. No call after the constructor takes memory or refuses.
pub struct Mind {
    code: Code,
    size: ChunkSize,
    ticket: Ticket,
    run: Run,
    entries: Vec<Locals>,
    syncs: u64,
    counts: SyncCounts,
    outgoing: Outgoing,
}

impl Drop for Mind {
    fn drop(self) {
        let Mind {
            code: _,
            size: _,
            ticket: _,
            run: _,
            entries: _,
            syncs: _,
            counts: _,
            outgoing: _,
        } = self;
    }
}

impl Model for Mind {
    ghost use Rattle.std.specs.Prelude.{◌≤◌, length, vec_capacity};
    ghost use Rattle.qs_client.specs.MindState.{MindState};
    ghost use Rattle.qs_client.specs.SoundMind.{IsSoundMind};

    ghost Value = { MindState };

    ghost view = { λ m. record {
      code = m.code;
      size = m.size;
      ticket = m.ticket;
      run = m.run;
      entries = m.entries.items;
      syncs = m.syncs;
      counts = m.counts;
      outgoing = m.outgoing;
    } };

    ghost invariant = { λ m. (length m.code.blocks ≤ vec_capacity m.entries) × IsSoundMind (record {
      code = m.code;
      size = m.size;
      ticket = m.ticket;
      run = m.run;
      entries = m.entries.items;
      syncs = m.syncs;
      counts = m.counts;
      outgoing = m.outgoing;
    }) };
}

// Of each block of a code no Sync is counted yet. An error comes only where there is a block.
fn fresh_counts(alloc: Global, code: &Code) -> Result<SyncCounts, AllocError>
    ensures fresh { IfOk result (λ counts. counts.rows ≡ fresh_rows (lists_of_code code.now.blocks)) }
    ensures memory { IsErr result → 0 < length code.now.blocks }
{
    code.keeps_code();
    let blocks = code.blocks();
    let mut counts = SyncCounts::new(alloc, blocks, blocks * MOST_HANDLERS)?;
    for block in 0..blocks {
        counts.push_list(block, code.reserved(block));
    }
    Ok(counts)
}

// A Sync that was sent is counted.
fn tally(counts: &mut SyncCounts, outgoing: Outgoing, block: usize)
    requires block { block < length counts.old.rows }
    requires few { AreFew greatest_count (slice_index_or counts.old.rows block []) }
    ensures counted { counts.new ≡ counts_state (tally outgoing block counts.old.rows) counts.old.room }
{
    if let Outgoing::Sync(handler) = outgoing {
        counts.add(block, handler);
    }
}

impl Mind {
    /// The mind of a client that runs this code in chunks of this size, before its first block, with all the memory
    /// that it will ever need. An error says that this memory was refused: it comes only where the client has a block.
    pub fn new(alloc: Global, code: Code, size: ChunkSize) -> Result<Mind, AllocError>
        ensures fresh { IfOk result (λ m. mind_of m ≡ fresh_mind code size) }
        ensures memory { IsErr result → 0 < length code.blocks }
    {
        code.keeps_code();
        let _ = size.get();
        let run = Run::new(alloc, &code)?;
        let counts = fresh_counts(alloc, &code)?;
        let entries = Vec::with_capacity(alloc, code.blocks())?;
        Ok(Mind {
            code,
            size,
            ticket: Ticket {
                client: 0,
                index: 0,
            },
            run,
            entries,
            syncs: 0,
            counts,
            outgoing: Outgoing::Nothing,
        })
    }

    /// What holds of every mind. It does nothing.
    pub fn keeps_mind(&self)
        ensures mind { IsMind (mind_of self.now) }
    {
        let _ = &self.code;
    }

    // The last act was sent: what is left to be done for it is done.
    #[inline(always)]
    fn finish(&mut self)
        ensures done { mind_of self.new ≡ finish (mind_of self.old) }
    {
        if let Outgoing::Nothing = self.outgoing {
            return;
        }
        self.syncs += self.outgoing.syncs();
        tally(
            &mut self.counts,
            self.outgoing,
            usize::from(self.ticket.index),
        );
        self.run.after_send(&self.code, self.ticket, self.outgoing);
        self.outgoing = Outgoing::Nothing;
    }

    /// What the client does next, to be called once the last act was done. An object or a chunk that it sends goes out
    /// of the mind.
    pub fn next(&mut self) -> Act
        ensures act { result ≡ next_act (mind_of self.old) }
        ensures rest { mind_of self.new ≡ next_mind (mind_of self.old) }
        ensures asked { SendsNothing result → Asks (mind_of self.new) result }
    {
        let mut act = Act::Finished;
        self.next_into(&mut act);
        act
    }

    /// What the client does next, as `next` says, put where another act lay.
    #[inline(never)]
    pub fn next_into(&mut self, act: &mut Act)
        ensures act { act.new ≡ next_act (mind_of self.old) }
        ensures rest { mind_of self.new ≡ next_mind (mind_of self.old) }
        ensures asked { SendsNothing act.new → Asks (mind_of self.new) act.new }
    {
        self.finish();
        let begun = self.entries.len();
        self.run.act_into(&self.code, self.ticket, begun, act);
        self.outgoing = act.outgoing();
    }

    /// The client's next block was reserved, with this ticket.
    pub fn booked(&mut self, ticket: Ticket)
        requires asked { Asks (mind_of self.old) Act.Reserve }
        requires next { ticket.index ≡ (mind_of self.old).client.begun }
        ensures begun { mind_of self.new ≡ mind_after_begin (mind_of self.old) ticket }
    {
        let locals = self.run.locals();
        self.entries.push_reserved(locals);
        self.ticket = ticket;
        self.run.begin(&self.code, ticket);
    }

    /// The object came that the client waited for.
    pub fn got(&mut self, held: Held)
        requires asked { (h : ℕ) × Asks (mind_of self.old) (Act.Await h) }
        ensures object { mind_of self.new ≡ mind_after_object (mind_of self.old) held }
    {
        self.run.take_object(&self.code, self.ticket, held);
    }

    /// An empty chunk of the lane that the client asked for.
    pub fn chunk(&mut self, chunk: Chunk<Request>)
        requires asked { (h : ℕ) × Asks (mind_of self.old) (Act.NeedChunk h) }
        requires empty { chunk ≡ batch [] (mind_of self.old).size }
        ensures chunk { (h : ℕ) → Asks (mind_of self.old) (Act.NeedChunk h) → mind_of self.new ≡ mind_after_chunk (mind_of self.old) h }
    {
        self.run.take_chunk(&self.code, self.ticket, chunk);
    }

    /// The code that the client runs.
    #[tactic(auto, unfolding(crate::specs::MindState::mind_of))]
    pub fn code(&self) -> &Code
        ensures value { result.now ≡ (mind_of self.now).code }
    {
        &self.code
    }

    /// How many requests a chunk takes.
    #[tactic(auto, unfolding(crate::specs::MindState::mind_of))]
    pub fn size(&self) -> ChunkSize
        ensures value { result ≡ (mind_of self.now).size }
    {
        self.size
    }

    /// How many blocks the client has.
    #[tactic(auto, unfolding(crate::specs::MindState::mind_of))]
    pub fn blocks(&self) -> usize
        ensures value { result ≡ length (mind_of self.now).code.blocks }
    {
        self.code.blocks()
    }

    /// How many blocks were begun.
    #[tactic(auto, unfolding(crate::specs::MindState::mind_of))]
    pub fn begun(&self) -> usize
        ensures value { result ≡ (mind_of self.now).client.begun }
    {
        self.entries.len()
    }

    /// Whether the client stands between blocks.
    #[tactic(auto, unfolding(crate::specs::MindState::mind_of))]
    pub fn is_between(&self) -> bool
        ensures value { result ≡ is_between (mind_of self.now).client.stage }
    {
        matches!(self.run.stage(), Stage::Between)
    }

    /// How many blocks have ended, as the act after a block's last End comes.
    #[tactic(auto, unfolding(crate::specs::MindState::mind_of))]
    pub fn ended(&self) -> usize
        ensures value { result ≡ blocks_ended (mind_of self.now).client }
    {
        let begun = self.entries.len();
        if self.is_between() { begun } else { begun - 1 }
    }

    /// Writes to all memory that was taken for traces, so that no block has to wait until the system finds it.
    pub fn touch(&mut self)
        ensures same { self.new ≡ self.old }
    {
        self.run.touch();
    }

    /// How many Syncs were sent, as the act after each comes.
    #[tactic(auto, unfolding(crate::specs::MindState::mind_of))]
    pub fn syncs(&self) -> u64
        ensures value { result ≡ (mind_of self.now).syncs }
    {
        self.syncs
    }

    /// How many Syncs were sent, as the act after each comes: a count for each block and each object of its list, in
    /// order.
    #[tactic(auto, unfolding(crate::specs::MindState::mind_of))]
    pub fn sync_counts(&self) -> &[u32]
        ensures value { result.now ≡ join_rows (all_counts (mind_of self.now).counts) }
    {
        self.counts.joined()
    }

    /// The traces so far, of all blocks.
    #[tactic(auto, unfolding(crate::specs::MindState::mind_of))]
    pub fn traces(&self) -> &Traces
        ensures value { events_of result.now ≡ (mind_of self.now).traces }
    {
        self.run.traces()
    }

    /// The traces so far, joined: the events of all blocks, block after block.
    #[tactic(auto, unfolding(crate::specs::MindState::mind_of))]
    pub fn row(&self) -> &[Event]
        ensures value { result.now ≡ join_rows (mind_of self.now).traces }
    {
        self.run.traces().joined()
    }

    /// The client's variables as it entered each block that was begun.
    #[tactic(auto, unfolding(crate::specs::MindState::mind_of))]
    pub fn entries(&self) -> &[Locals]
        ensures value { result.now ≡ (mind_of self.now).entries }
    {
        &self.entries
    }

    /// The object of a handler, where the client holds it.
    #[tactic(auto, unfolding(crate::specs::MindState::mind_of))]
    pub fn held(&self, handler: u8) -> Option<&Held>
        requires handler { handler < most_handlers }
        ensures value { option_copied result ≡ (mind_of self.now).client.held handler }
    {
        self.run.held(handler)
    }

    /// The traces of all blocks, the variables at entry of those that were begun, and the counts of Syncs.
    #[tactic(auto, unfolding(crate::specs::MindState::mind_of))]
    pub fn into_rows(self) -> (Traces, Vec<Locals>, SyncCounts)
        ensures traces { events_of result.0 ≡ (mind_of self).traces }
        ensures entries { result.1.items ≡ (mind_of self).entries }
        ensures counts { result.2.rows ≡ (mind_of self).counts }
    {
        let Mind {
            code: _,
            size: _,
            ticket: _,
            run,
            entries,
            syncs: _,
            counts,
            outgoing: _,
        } = self;
        (run.into_traces(), entries, counts)
    }
}
