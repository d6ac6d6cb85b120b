// Why a script is refused, and where.

ghost use Rattle.std.specs.Prelude.{IfOk};
ghost use Rattle.qs_messages.specs.CheckTold.{IsExcessAt, IsRefusedAt, anchor_of};

use crate::causes::excess::say_excess;
use crate::causes::finding::{cause_of, learned};
use crate::causes::said::{Said, say};
use crate::causes::source::Source;
use crate::causes::words::say_cause;
use qs_check::anchors::{block_anchor, first_fault};
use qs_check::fault_places::CheckFault;
use qs_check::{Excess, first_excess};
use qs_script::tree::Script;
use std::alloc::{AllocError, Global};

/// Why a script is refused: a fault of its text, or a block with which it passes a limit.
#[derive(Clone, Copy)]
pub(crate) enum Why {
    Fault(CheckFault),
    Excess(Excess),
}

/// Why a script is refused, and the number of the anchor at which it is told.
#[derive(Clone, Copy)]
pub(crate) struct Refusal {
    pub(crate) anchor: usize,
    pub(crate) why: Why,
}

// The block with which a script passes a limit, where there is one.
fn excess_of(alloc: Global, script: &Script) -> Result<Option<Refusal>, AllocError>
    ensures at { IfOk result (λ found. IsExcessAt script.now (anchor_of found)) }
{
    let Some(excess) = first_excess(alloc, script)? else {
        return Ok(None);
    };
    match block_anchor(alloc, script, excess.client, excess.block)? {
        Some(anchor) => Ok(Some(Refusal {
            anchor,
            why: Why::Excess(excess),
        })),
        None => Ok(None),
    }
}

/// Why a script is refused: its first fault in text order, or, where its text has none, the block with which it passes
/// a limit. Nothing, where it is not refused. It fails only where memory runs out.
pub(crate) fn refusal_of(alloc: Global, script: &Script) -> Result<Option<Refusal>, AllocError>
    ensures at { IfOk result (λ found. IsRefusedAt script.now (anchor_of found)) }
{
    match first_fault(alloc, script)? {
        Some(first) => Ok(Some(Refusal {
            anchor: first.anchor,
            why: Why::Fault(first.fault),
        })),
        None => excess_of(alloc, script),
    }
}

// What is said of a fault at the place of a token.
fn say_fault(
    alloc: Global,
    source: Source<'_>,
    place: usize,
    fault: CheckFault,
) -> Result<Said, AllocError> {
    let known = learned(alloc, source, place)?;
    match cause_of(source, &known, place, fault) {
        Some(cause) => say_cause(alloc, source, &known, place, cause),
        None => say(
            alloc,
            source.span(place),
            &[b"the script is refused here"],
            &[],
            &[],
        ),
    }
}

/// What is said of a refusal at the place of its token.
pub(crate) fn say_refusal(
    alloc: Global,
    source: Source<'_>,
    place: usize,
    why: Why,
) -> Result<Said, AllocError> {
    match why {
        Why::Fault(fault) => say_fault(alloc, source, place, fault),
        Why::Excess(excess) => say_excess(alloc, source, place, excess),
    }
}
