//! Clients under the plain rules.

ghost use Rattle.qs_program.specs.audit.Limits.{most_blocks, most_requests};
ghost use Rattle.qs_program.specs.audit.Program.{block_at, blocks_of};
ghost use Rattle.qs_plain.specs.client.PreparedBlock.{AreQueues, reserved_lists, rooms_of};
ghost use Rattle.qs_objects.specs.Traces.{empty_trace};
ghost use Rattle.qs_sync_counts.specs.audit.SyncRows.{fresh_rows};
ghost use Rattle.qs_played.specs.audit.Schedule.{queries_in};
ghost use Rattle.qs_plain.specs.client.ReplyDelivery.{Hears};
ghost use Rattle.qs_plain.specs.client.FreshClients.{AreFresh};
ghost use Rattle.std.specs.Prelude.{◌≡◌, ◌+◌, ◌*◌, ◌<◌, ◌≤◌, ℕ, IfOk, IsErr, length, map, nat_lt, suc};
ghost use Rattle.qs_program.specs.audit.Values.{request_of};
ghost use Rattle.qs_plain.specs.client.Frames.{load_left};
ghost use Rattle.qs_plain.specs.declared.client.stage.Stage.TheVariants as stages;

use crate::client::frames::{Ask, Frames, grow};
use crate::client::private_queue::PrivateQueue;
use crate::client::stage::Stage;
use qs_objects::{Event, Request, Ticket, Traces};
use qs_played::ClientRows;
use qs_program::{Call, Locals, MOST_OBJECTS, MOST_VARIABLES, Program, block_load, set_variable};
use qs_sync_counts::SyncCounts;
use std::alloc::{AllocError, Global};
use std::collections::VecDeque;
use std::marker::Model;

/// What is prepared for a block: its private queues, each with its object.
#[derive(Drop)]
pub struct Prepared {
    queues: VecDeque<(u8, PrivateQueue)>,
}

impl Model for Prepared {
    ghost use Rattle.std.specs.Prelude.{List, ℕ};
    ghost use Rattle.qs_plain.specs.client.Clients.{queues_code};
    ghost use Rattle.qs_plain.specs.client.Queues.{QueueState};

    ghost Value = { List (ℕ × QueueState) };

    ghost coded = { queues_code };

    ghost view = { λ p. p.queues.items };
}

/// What a client asked, a request as its text has it.
#[derive(Clone, Copy)]
pub enum Asked<'p> {
    Command(&'p Call),
    Query(&'p Call),
    End,
}

/// A client, which takes memory in `new` alone.
pub struct ClientState<'p> {
    program: &'p Program,
    number: u8,
    stage: Stage,
    locals: Locals,
    frames: Frames<'p>,
    entries: Vec<Locals>,
    traces: Traces,
    counts: SyncCounts,
    prepared: VecDeque<Prepared>,
}

impl Drop for ClientState<'_> {
    fn drop(self) {
        let ClientState {
            program: _,
            number: _,
            stage: _,
            locals: _,
            frames: _,
            entries: _,
            traces: _,
            counts: _,
            prepared: _,
        } = self;
    }
}

impl<'p> Model for ClientState<'p> {
    ghost use Rattle.std.specs.Prelude.{◌≤◌, ◌+◌, length, vec_len, vec_capacity};
    ghost use Rattle.std.specs.VecDeque.{deque_len};
    ghost use Rattle.qs_plain.specs.client.Clients.{AreStored, ClientState as State, client_code, client_from, IsClient};

    ghost Value = { State };

    ghost coded = { client_code };

    ghost view = { λ c. client_from c.program.now c.number c.stage c.locals c.frames.frames c.frames.room c.entries.items c.traces c.counts.rows c.prepared.items };

    ghost invariant = { λ c.
        IsClient (client_from c.program.now c.number c.stage c.locals c.frames.frames c.frames.room c.entries.items c.traces c.counts.rows c.prepared.items)
        × AreStored (length c.entries.items) c.traces c.counts.rows (length c.prepared.items)
        × (vec_len c.entries + deque_len c.prepared ≤ vec_capacity c.entries) };
}

impl<'p> ClientState<'p> {
    ghost use Rattle.qs_plain.specs.client.Clients.{AreRowsOf, IsClient, IsFresh, client_of_state, current_block};
    ghost use Rattle.qs_plain_laws.specs.audit.PlainSchedule.{has_ended, is_done, syncs_of, waits};
    ghost use Rattle.qs_plain.specs.client.ClientMoves.{Begins, AsksNext, Replies, requested_of, IsReserved, IsShortAsk};

    /// A client of the program before its first block, with all the memory that it will need. An error says that this
    /// memory was refused: it comes only where the client has a block.
    pub fn new(
        alloc: Global,
        program: &'p Program,
        number: u8,
    ) -> Result<ClientState<'p>, AllocError>
        requires { number < length program.now.clients }
        ensures fresh { IfOk result (IsFresh program.now number) }
        ensures memory { IsErr result → 0 < blocks_of program.now number }
    {
        program.keeps_sound();
        let count = program.blocks_of(number);
        let mut frames = Vec::new(alloc);
        let mut prepared = VecDeque::new(alloc);
        for index in 0..count as u8 {
            grow(&mut frames, program.block(number, index).body())?;
            prepared.push_back(prepare(alloc, program, number, index)?)?;
        }
        Ok(ClientState {
            program,
            number,
            stage: Stage::Out,
            locals: [0; MOST_VARIABLES],
            frames: Frames::over(frames),
            entries: Vec::with_capacity(alloc, count)?,
            traces: fresh_traces(alloc, program, number)?,
            counts: fresh_query_counts(alloc, program, number)?,
            prepared,
        })
    }

    /// How many of its blocks were begun.
    pub fn begun(&self) -> usize
        ensures value { result ≡ length self.now.entries }
        ensures limit { result ≤ most_blocks }
        ensures kept { IsClient self.now }
    {
        self.program.keeps_sound();
        self.entries.len()
    }

    /// Where it stands.
    pub fn stage(&self) -> Stage
        ensures value { result ≡ self.now.stage }
    {
        self.stage
    }

    /// Whether a block is to come.
    pub fn has_more(&self) -> bool
        ensures value { result ≡ nat_lt 0 (length self.now.prepared) }
        ensures kept { IsClient self.now }
    {
        !self.prepared.is_empty()
    }

    /// Whether it stands between two blocks, with none to come.
    pub fn is_done(&self) -> bool
        ensures value { result ≡ is_done self.now.program self.now.number (client_of_state self.now) }
    {
        match self.stage {
            Stage::Out => self.prepared.is_empty(),
            _ => false,
        }
    }

    /// Whether the block of this number has ended.
    pub fn has_ended(&self, index: u8) -> bool
        ensures value { result ≡ has_ended (client_of_state self.now) index }
    {
        let next = usize::from(index) + 1;
        next < self.entries.len() || (next == self.entries.len() && self.stage == Stage::Out)
    }

    /// What its blocks have shown, by move: the traces and counts of all blocks, and the entries of those that were
    /// begun.
    pub fn into_rows(self) -> ClientRows
        ensures rows { AreRowsOf result (client_of_state self.entry) }
    {
        let ClientState {
            program: _,
            number: _,
            stage: _,
            locals: _,
            frames: _,
            entries,
            traces,
            counts,
            prepared: _,
        } = self;
        ClientRows::new(traces, entries, counts)
    }

    /// How many queries it has asked.
    pub fn syncs(&self) -> u64
        ensures value { result ≡ syncs_of (client_of_state self.now) }
        ensures limit { result ≤ suc (most_blocks * most_requests) }
    {
        self.program.keeps_sound();
        let mut syncs = self.waits();
        for block in 0..self.entries.len() {
            syncs += queries(self.traces.of(block));
        }
        syncs
    }

    fn waits(&self) -> u64
        ensures value { result ≡ waits (client_of_state self.now).stage }
        ensures limit { result ≤ 1 }
    {
        match self.stage {
            Stage::Waiting(_) => 1,
            _ => 0,
        }
    }

    /// Begins its next block, and hands out the private queues that are prepared for it.
    pub fn begin(&mut self) -> VecDeque<(u8, PrivateQueue)>
        requires out { self.old.stage ≡ stages.Out }
        requires more { 0 < length self.old.prepared }
        ensures begins { Begins self.old result.items self.new }
    {
        self.program.keeps_sound();
        let program = self.program;
        let index = self.entries.len() as u8;
        let Some(prepared) = self.prepared.pop_front() else {
            unreachable!();
        };
        let Prepared { queues } = prepared;
        self.frames.enter(program.block(self.number, index).body());
        self.entries.push_reserved(self.locals);
        self.stage = Stage::Within;
        queues
    }

    /// The request that a call of its text makes, with the variables as they are now.
    #[inline(always)]
    pub fn request(&self, alloc: Global, call: &Call) -> Request
        requires { length call.now.args ≤ 3 }
        ensures value { result ≡ request_of self.now.locals call.now }
    {
        call.request(alloc, &self.locals)
    }

    /// All quiet moves, and then what is asked; a command enters the trace.
    #[inline(always)]
    pub fn ask(&mut self, alloc: Global) -> Asked<'p>
        requires { self.old.stage ≡ stages.Within }
        ensures goes { AsksNext result self.old self.new }
        ensures short { IsShortAsk result }
        ensures load { (h : ℕ) → requested_of result h + load_left self.new.frames h ≤ load_left self.old.frames h }
        ensures reserves { IsReserved (current_block self.old).reserved result }
    {
        match self.frames.settle(&mut self.locals) {
            Ask::Command(call) => {
                let event = Event {
                    request: call.request(alloc, &self.locals),
                    reply: None,
                };
                self.traces.note(self.entries.len() - 1, event);
                Asked::Command(call)
            }
            Ask::Query(variable, call) => {
                self.stage = Stage::Waiting(variable);
                self.counts.add(self.entries.len() - 1, call.object);
                Asked::Query(call)
            }
            Ask::End => {
                self.stage = Stage::Out;
                Asked::End
            }
        }
    }

    /// Takes the reply of its query, which enters the trace; nothing happens where it does not wait.
    pub fn reply(&mut self, request: Request, reply: Option<i64>)
        ensures replies { Replies self.old request reply self.new }
        ensures was { IsClient self.old }
    {
        if let Stage::Waiting(variable) = self.stage {
            set_variable(&mut self.locals, variable, reply.unwrap_or(0));
            self.traces
                .note(self.entries.len() - 1, Event { request, reply });
            self.stage = Stage::Within;
        }
    }
}

/// All clients of a program before their first blocks.
pub fn fresh_clients<'p>(
    alloc: Global,
    program: &'p Program,
) -> Result<Vec<ClientState<'p>>, AllocError>
    ensures fresh { IfOk result (λ clients. AreFresh program.now clients.items) }
{
    program.keeps_sound();
    let mut clients = Vec::new(alloc);
    for number in 0..program.clients() as u8 {
        clients.push(ClientState::new(alloc, program, number)?)?;
    }
    Ok(clients)
}

/// Hands a reply to the client of the ticket, where there is one.
pub fn answer(clients: &mut Vec<ClientState>, ticket: Ticket, request: Request, reply: Option<i64>)
    ensures heard { ticket.client < length clients.old.items → Hears clients.old.items ticket.client request reply clients.new.items }
    ensures unheard { length clients.old.items ≤ ticket.client → clients.new.items ≡ clients.old.items }
{
    let place = usize::from(ticket.client);
    if place < clients.len() {
        let client = &mut clients[place];
        client.reply(request, reply);
    }
}

/// What a block needs: for each object of its list a private queue with room for the load there and the end mark.
fn prepare(alloc: Global, program: &Program, number: u8, index: u8) -> Result<Prepared, AllocError>
    requires client { number < length program.now.clients }
    requires block { index < blocks_of program.now number }
    ensures ready { IfOk result (AreQueues number index (block_at program.now number index)) }
{
    program.keeps_sound();
    let reserved = program.block(number, index).reserved();
    let mut queues = VecDeque::with_capacity(alloc, reserved.len())?;
    for object in reserved {
        let requests = program.load_of(number, index, *object) as usize;
        let ticket = Ticket {
            client: number,
            index,
        };
        queues.push_back_reserved((*object, PrivateQueue::new(alloc, ticket, requests + 1)?));
    }
    Ok(Prepared { queues })
}

// The empty traces of all blocks of a client, each with room for its block's load. An error comes only where there is a
// block.
fn fresh_traces(alloc: Global, program: &Program, number: u8) -> Result<Traces, AllocError>
    requires { number < length program.now.clients }
    ensures fresh { IfOk result (λ traces. traces ≡ map empty_trace (rooms_of program.now number)) }
    ensures memory { IsErr result → 0 < blocks_of program.now number }
{
    program.keeps_sound();
    let count = program.blocks_of(number);
    let mut rooms = Vec::with_capacity(alloc, count)?;
    let mut room = 0;
    for index in 0..count as u8 {
        let requests = block_load(program.block(number, index)) as usize;
        rooms.push_reserved(requests);
        room += requests;
    }
    Traces::new(alloc, rooms, room)
}

// Of each block of a client no query is counted yet. An error comes only where there is a block.
fn fresh_query_counts(
    alloc: Global,
    program: &Program,
    number: u8,
) -> Result<SyncCounts, AllocError>
    requires { number < length program.now.clients }
    ensures fresh { IfOk result (λ counts. counts.rows ≡ fresh_rows (reserved_lists program.now number)) }
    ensures memory { IsErr result → 0 < blocks_of program.now number }
{
    program.keeps_sound();
    let count = program.blocks_of(number);
    let mut counts = SyncCounts::new(alloc, count, count * MOST_OBJECTS)?;
    for index in 0..count as u8 {
        let block = program.block(number, index);
        counts.push_list(usize::from(index), block.reserved());
    }
    Ok(counts)
}

// How many of these events are queries.
fn queries(events: &[Event]) -> u64
    requires few { length events.now ≤ most_requests }
    ensures value { result ≡ queries_in events.now }
    ensures limit { result ≤ most_requests }
{
    let mut queries = 0;
    for event in events {
        if event.request.op.is_query() {
            queries += 1;
        }
    }
    queries
}
