//! What a client runs.

ghost use Rattle.std.specs.Prelude.{◌≡◌, ◌<◌, ◌≤◌, ℕ, length, slice_index_or, IfOk, IsErr};
ghost use Rattle.qs_program.specs.audit.Limits.{most_handlers, most_requests};
ghost use Rattle.qs_program.specs.audit.Program.{binding_of, block_at, blocks_of};
ghost use Rattle.qs_program.specs.audit.Loads.{load_of};
ghost use Rattle.qs_graph.specs.audit.Names.{graph_of};
ghost use Rattle.qs_syncset.specs.audit.Codes.{IsCodeOf, IsBlockCode, IsBoundGraphOf, code_at, load_at};
ghost use Rattle.qs_syncset.specs.Codes.{IsCode};
ghost use Rattle.qs_syncset.specs.audit.Modes.{is_static};

use crate::held::held_sets;
use crate::mode::Mode;
use crate::removal::coalesce;
use qs_graph::{Graph, Named, graph_in};
use qs_program::{MOST_HANDLERS, Program};
use smallvec::SmallVec;
use std::alloc::{AllocError, Global};
use std::marker::Model;

/// A block as a client runs it.
#[derive(Drop)]
pub(crate) struct BlockCode {
    reserved: SmallVec<u8, MOST_HANDLERS>,
    graph: Graph,
    loads: [u64; MOST_HANDLERS],
}

impl Model for BlockCode {
    ghost use Rattle.std.specs.Prelude.{ℕ, ◌≤◌, slice_index_or};
    ghost use Rattle.qs_program.specs.audit.Limits.{most_requests};
    ghost use Rattle.qs_syncset.specs.audit.Codes as codes;
    ghost use Rattle.qs_syncset.specs.Shapes.{coded_block};

    ghost Value = { codes.BlockCode };

    ghost coded = { coded_block };

    ghost view = { λ b. record { reserved = b.reserved.items; graph = b.graph.nodes; loads = b.loads } };

    ghost invariant = { λ b. (h : ℕ) → slice_index_or b.loads h 0 ≤ most_requests };
}

impl BlockCode {
    fn reserved(&self) -> &[u8]
        ensures value { result.now ≡ self.now.reserved }
    {
        self.reserved.as_slice()
    }

    fn graph(&self) -> &Graph
        ensures value { result.now.nodes ≡ self.now.graph }
    {
        &self.graph
    }

    fn load(&self, handler: u8) -> u64
        requires in_range { handler < most_handlers }
        ensures value { result ≡ load_at self.now handler }
        ensures limit { result ≤ most_requests }
    {
        self.loads[usize::from(handler)]
    }
}

/// The code of a client: for each of its blocks the reserved handlers, the graph and the loads, and whether it tests
/// what it holds.
pub struct Code {
    dynamic: bool,
    blocks: Vec<BlockCode>,
}

impl Drop for Code {
    fn drop(self) {
        let Code {
            dynamic: _,
            blocks: _,
        } = self;
    }
}

impl Model for Code {
    ghost use Rattle.qs_syncset.specs.audit.Codes.{ClientCode};
    ghost use Rattle.qs_syncset.specs.Codes.{IsCode};
    ghost use Rattle.qs_syncset.specs.Shapes.{coded_client};

    ghost Value = { ClientCode };

    ghost coded = { coded_client };

    ghost view = { λ c. record { dynamic = c.dynamic; blocks = c.blocks.items } };

    ghost invariant = { λ c. IsCode (record { dynamic = c.dynamic; blocks = c.blocks.items }) };
}

impl Code {
    /// What holds of every code: it was compiled for a client of a checked program. It does nothing, and no call of a
    /// code takes memory.
    pub fn keeps_code(&self)
        ensures code { IsCode self.now }
    {
        let _ = &self.blocks;
    }

    /// Whether a client that comes to a synchronisation tests whether it holds the handler.
    pub fn is_dynamic(&self) -> bool
        ensures value { result ≡ self.now.dynamic }
    {
        self.dynamic
    }

    /// How many blocks the client has.
    pub fn blocks(&self) -> usize
        ensures value { result ≡ length self.now.blocks }
    {
        self.blocks.len()
    }

    fn block(&self, block: usize) -> &BlockCode
        requires block { block < length self.now.blocks }
        ensures value { result.now ≡ code_at self.now block }
    {
        &self.blocks[block]
    }

    /// The handlers that a block reserves, in the order of its list.
    pub fn reserved(&self, block: usize) -> &[u8]
        requires block { block < length self.now.blocks }
        ensures value { result.now ≡ (code_at self.now block).reserved }
    {
        self.block(block).reserved()
    }

    /// The graph that the client walks through in a block.
    pub fn graph(&self, block: usize) -> &Graph
        requires block { block < length self.now.blocks }
        ensures value { result.now.nodes ≡ (code_at self.now block).graph }
    {
        self.block(block).graph()
    }

    /// How many requests a block can make on a handler's object; at most 100,000.
    pub fn load(&self, block: usize, handler: u8) -> u64
        requires block { block < length self.now.blocks }
        requires handler { handler < most_handlers }
        ensures value { result ≡ load_at (code_at self.now block) handler }
        ensures limit { result ≤ most_requests }
    {
        self.block(block).load(handler)
    }
}

// The graph of a block in its own names, coalesced in the static modes; then each name is replaced by its object.
fn block_graph_in(
    alloc: Global,
    program: &Program,
    mode: Mode,
    client: u8,
    block: u8,
    room: &mut Vec<Named>,
) -> Result<Graph, AllocError>
    requires client { client < length program.now.clients }
    requires block { block < blocks_of program.now client }
    ensures graph { IfOk result (λ g. IsBoundGraphOf (is_static mode) (graph_of program.now client block) (binding_of program.now client) g.nodes) }
{
    let built = graph_in(alloc, program, client, block, room)?;
    if !mode.is_static() {
        return Ok(built.bound_in(program, client, room));
    }
    let sets = held_sets(alloc, &built)?;
    Ok(coalesce(built, &sets).bound_in(program, client, room))
}

// How many requests a block can make on each of 8 handlers' objects.
fn loads_of(program: &Program, client: u8, block: u8) -> [u64; MOST_HANDLERS]
    requires client { client < length program.now.clients }
    requires block { block < blocks_of program.now client }
    ensures value { (h : ℕ) → h < most_handlers → slice_index_or result h 0 ≡ load_of (block_at program.now client block).body h }
    ensures limit { (h : ℕ) → slice_index_or result h 0 ≤ most_requests }
{
    let mut loads = [0; MOST_HANDLERS];
    for handler in 0..8u8 {
        loads[usize::from(handler)] = program.load_of(client, block, handler);
    }
    loads
}

fn block_code(
    alloc: Global,
    program: &Program,
    mode: Mode,
    client: u8,
    block: u8,
    room: &mut Vec<Named>,
) -> Result<BlockCode, AllocError>
    requires client { client < length program.now.clients }
    requires block { block < blocks_of program.now client }
    ensures code { IfOk result (λ code. IsBlockCode (is_static mode) (block_at program.now client block) (graph_of program.now client block) (binding_of program.now client) code) }
{
    Ok(BlockCode {
        reserved: SmallVec::from_slice(alloc, program.block(client, block).reserved())?,
        graph: block_graph_in(alloc, program, mode, client, block, room)?,
        loads: loads_of(program, client, block),
    })
}

/// The code of a client, coalesced in the static modes alone, and with the test of what is held in the dynamic modes
/// alone. An error says that memory was refused: it comes only where the client has a block.
pub fn compile(alloc: Global, program: &Program, mode: Mode, client: u8) -> Result<Code, AllocError>
    requires client { client < length program.now.clients }
    ensures code { IfOk result (λ code. IsCodeOf program.now mode client code) }
    ensures memory { IsErr result → 0 < blocks_of program.now client }
{
    program.keeps_sound();
    let count = program.blocks_of(client);
    let mut blocks = Vec::with_capacity(alloc, count)?;
    let mut room = Vec::new(alloc);
    for block in 0..count {
        blocks.push_reserved(block_code(alloc, program, mode, client, block as u8, &mut room)?);
    }
    Ok(Code {
        dynamic: mode.is_dynamic(),
        blocks,
    })
}
