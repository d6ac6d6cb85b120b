//! The parts of a run: minds, objects and lanes.

ghost use Rattle.std.specs.Prelude.{◌<◌, length, IfOk};
ghost use Rattle.qs_run.specs.Prepared.{AreRunParts};
ghost use Rattle.qs_run.specs.Workers.{IsListOf, IsMindAtStart, IsObjectAtStart};

use crate::client::ClientLanes;
use crate::handler::HandlerLanes;
use crate::prepare::lanes::{LaneEnds, make_lanes};
use qs_chunk::ChunkSize;
use qs_client::Mind;
use qs_objects::Held;
use qs_played::declared_held;
use qs_program::Program;
use qs_syncset::{Mode, compile};
use std::alloc::{AllocError, Global};
use std::sync::Wait;

/// What a run begins with, beside the desk: a mind for each client, an object with its journal for each handler, and
/// both ends of a lane for each client and each handler that some block of the client reserves. `outs` has a row for
/// each client, `ins` one for each handler.
#[derive(Drop)]
pub(crate) struct RunParts {
    pub(crate) minds: Vec<Mind>,
    pub(crate) helds: Vec<Held>,
    pub(crate) outs: Vec<ClientLanes>,
    pub(crate) ins: Vec<HandlerLanes>,
}

// The mind of a client before its first block: its blocks are compiled in this mode.
fn make_mind(
    alloc: Global,
    program: &Program,
    mode: Mode,
    size: ChunkSize,
    client: u8,
) -> Result<Mind, AllocError>
    requires client { client < length program.now.clients }
    ensures mind { IfOk result (λ mind. IsMindAtStart program.now mode size client mind) }
{
    let code = compile(alloc, program, mode, client)?;
    Mind::new(alloc, code, size)
}

// The mind of each client, before its first block.
fn make_minds(
    alloc: Global,
    program: &Program,
    mode: Mode,
    size: ChunkSize,
) -> Result<Vec<Mind>, AllocError>
    ensures minds { IfOk result (λ minds. IsListOf (length program.now.clients) (IsMindAtStart program.now mode size) minds.items) }
{
    program.keeps_sound();
    let count = program.clients();
    let mut minds = Vec::with_capacity(alloc, count)?;
    for client in 0..count as u8 {
        minds.push_reserved(make_mind(alloc, program, mode, size, client)?);
    }
    Ok(minds)
}

// Each object as declared, with an empty journal.
fn make_helds(alloc: Global, program: &Program) -> Result<Vec<Held>, AllocError>
    ensures helds { IfOk result (λ helds. IsListOf (length program.now.objects) (IsObjectAtStart program.now) helds.items) }
{
    program.keeps_sound();
    let count = program.objects();
    let mut helds = Vec::with_capacity(alloc, count)?;
    for object in 0..count as u8 {
        helds.push_reserved(declared_held(alloc, program, object)?);
    }
    Ok(helds)
}

/// Makes the parts of a program's run: the clients' blocks are compiled in this mode, and the chunks of the lanes have
/// this size. An error says that an allocation failed; then all that was made has been dropped again.
pub(crate) fn make_parts<R: Wait>(
    rt: &R,
    alloc: Global,
    program: &Program,
    mode: Mode,
    size: ChunkSize,
) -> Result<RunParts, AllocError>
    ensures parts { IfOk result (AreRunParts program.now mode size) }
{
    let minds = make_minds(alloc, program, mode, size)?;
    let helds = make_helds(alloc, program)?;
    let LaneEnds { outs, ins } = make_lanes(rt, alloc, program, size)?;
    Ok(RunParts {
        minds,
        helds,
        outs,
        ins,
    })
}
