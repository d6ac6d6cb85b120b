//! All the memory of a client, and the beginning of a block.

ghost use Rattle.std.specs.Prelude.{◌≡◌, ◌<◌, ◌≤◌, ◌*◌, ℕ, IfOk, IsErr, length, replicate};
ghost use Rattle.qs_program.specs.audit.Limits.{most_handlers, most_requests};
ghost use Rattle.qs_syncset.specs.audit.Codes.{code_at};
ghost use Rattle.qs_client.specs.run.Beginning.{at_beginning, fresh_run};
ghost use Rattle.qs_client.specs.audit.rules.Client.{ClientStage, Settings};
ghost use Rattle.qs_client.specs.run.BlockSizes.{empty_rows, room_for};
ghost use Rattle.qs_client.specs.audit.run.BlockSizes.{longest};
ghost use Rattle.qs_client.specs.run.ClientOfRun.{HasSettled};
ghost use Rattle.qs_client.specs.run.Running.{IsRunning};

use crate::run::holdings::Holdings;
use crate::run::position::Position;
use crate::run::run::Run;
use crate::run::stage::Stage;
use qs_objects::{Ticket, Traces};
use qs_program::{MOST_HANDLERS, MOST_VARIABLES};
use qs_syncset::Code;
use std::alloc::{AllocError, Global};

// How many nodes the longest graph has.
fn longest_graph(code: &Code) -> usize
    ensures value { result ≡ longest code.now.blocks }
{
    let mut most = 0;
    for block in 0..code.blocks() {
        most = code.graph(block).len().max(most);
    }
    most
}

// How many requests a block can make.
fn room_of(code: &Code, block: usize) -> usize
    requires block { block < length code.now.blocks }
    ensures value { result ≡ room_for (code_at code.now block) }
    ensures few { result ≤ most_handlers * most_requests }
{
    let mut room = 0;
    for handler in 0..MOST_HANDLERS as u8 {
        room += code.load(block, handler) as usize;
    }
    room
}

// The empty traces of all blocks, with all the memory. An error comes only where there is a block.
fn empty_traces(alloc: Global, code: &Code) -> Result<Traces, AllocError>
    ensures empty { IfOk result (λ traces. traces ≡ empty_rows code.now.blocks) }
    ensures memory { IsErr result → 0 < length code.now.blocks }
{
    code.keeps_code();
    let count = code.blocks();
    let mut rooms = Vec::with_capacity(alloc, count)?;
    let mut room = 0;
    for block in 0..count {
        let requests = room_of(code, block);
        rooms.push_reserved(requests);
        room += requests;
    }
    Traces::new(alloc, rooms, room)
}

// A count of 0 for each node of the longest graph. An error comes only where there is a block.
fn repeat_counts(alloc: Global, code: &Code) -> Result<Vec<u64>, AllocError>
    ensures value { IfOk result (λ counts. counts.items ≡ replicate (longest code.now.blocks) 0) }
    ensures memory { IsErr result → 0 < length code.now.blocks }
{
    let nodes = longest_graph(code);
    let mut counts = Vec::with_capacity(alloc, nodes)?;
    counts.resize(nodes, 0)?;
    Ok(counts)
}

impl Run {
    /// Before the first block, with all variables 0 and all the memory. An error says that this memory was refused: it
    /// comes only where the client has a block.
    pub fn new(alloc: Global, code: &Code) -> Result<Run, AllocError>
        ensures fresh { IfOk result (λ run. run ≡ fresh_run code.now.blocks) }
        ensures memory { IsErr result → 0 < length code.now.blocks }
    {
        let counts = repeat_counts(alloc, code)?;
        Ok(Run {
            position: Position::new(0, [0; MOST_VARIABLES], counts),
            holdings: Holdings::new(),
            traces: empty_traces(alloc, code)?,
            stage: Stage::Between,
        })
    }

    /// A block begins, at its first node with all counts 0.
    pub fn begin(&mut self, code: &Code, ticket: Ticket)
        requires block { ticket.index < length code.now.blocks }
        requires running { (size : ℕ) × (n : ℕ) × IsRunning (code_at code.now ticket.index).graph size ticket.index n (at_beginning self.old) }
        ensures settled { (settings : Settings) (begun : ℕ) (p : ClientStage) (n : ℕ) → settings.dynamic ≡ code.now.dynamic
            → IsRunning (code_at code.now ticket.index).graph settings.size ticket.index n (at_beginning self.old)
            → HasSettled (code_at code.now ticket.index).graph settings ticket (code_at code.now ticket.index).reserved begun p n
            (at_beginning self.old) self.new }
    {
        self.position.restart();
        self.resume(code, ticket);
    }
}
