// What is said of a script whose load or weight is too great.

ghost use Rattle.std.specs.Prelude.{◌≡◌, IfOk, option_map};
ghost use Rattle.qs_check.specs.Excess.{limit_by};
ghost use Rattle.qs_messages.specs.ExcessTold.{before_text, begins_block, block_text, can_text, cause_text, count_text, help_text, label_text, unit_text};
ghost use Rattle.qs_messages.specs.Sources.{span_in, token_in};

use crate::causes::said::{Said, digits, joined, say};
use crate::causes::source::Source;
use qs_check::{Excess, Measure};
use qs_program::{MOST_REQUESTS, MOST_STEPS};
use qs_script::tokens::Token;
use std::alloc::{AllocError, Global};

fn limit(measure: Measure) -> u64
    ensures exact { result ≡ limit_by measure }
{
    match measure {
        Measure::Load => MOST_REQUESTS,
        Measure::Weight => MOST_STEPS,
    }
}

// What a block can do, and how often at most; of a count that stops one past the limit, that it is more than the limit.
fn say_count(alloc: Global, excess: Excess) -> Result<Vec<u8>, AllocError>
    ensures said { IfOk result (λ out. out.items ≡ count_text excess) }
{
    let most = limit(excess.measure);
    let (can, unit) = deed(excess.measure);
    let more: &'static [u8] = if excess.count > most {
        b"more than "
    } else {
        b""
    };
    let count = digits(alloc, excess.count.min(most) as usize)?;
    joined(alloc, &[can, more, count.as_slice(), unit])
}

// What the blocks before it can do; nothing where it is the first.
fn say_before(alloc: Global, excess: Excess) -> Result<Vec<u8>, AllocError>
    ensures said { IfOk result (λ out. out.items ≡ before_text excess) }
{
    if excess.before == 0 {
        return Ok(Vec::new(alloc));
    }
    let count = digits(alloc, excess.before as usize)?;
    joined(alloc, &[b", and those before it ", count.as_slice()])
}

// Whether a block begins at a token.
fn begins_block(token: Option<&Token>) -> bool
    ensures exact { result ≡ begins_block (option_map (λ token. token.now) token.entry) }
{
    matches!(token, Some(Token::Separate))
}

// Which block it is: the one that begins here, or one of the client that is started here, counted from 1.
fn say_block(alloc: Global, token: Option<&Token>, excess: Excess) -> Result<Vec<u8>, AllocError>
    ensures said { IfOk result (λ out. out.items ≡ block_text (begins_block (option_map (λ token. token.now) token.entry)) excess) }
{
    if begins_block(token) {
        return joined(alloc, &[b"this block"]);
    }
    let number = digits(alloc, excess.block.saturating_add(1))?;
    joined(alloc, &[b"block ", number.as_slice(), b" of this client"])
}

fn say_label(alloc: Global, token: Option<&Token>, excess: Excess) -> Result<Vec<u8>, AllocError>
    ensures said { IfOk result (λ out. out.items ≡ label_text (option_map (λ token. token.now) token.entry) excess) }
{
    let block = say_block(alloc, token, excess)?;
    let count = say_count(alloc, excess)?;
    let before = say_before(alloc, excess)?;
    joined(
        alloc,
        &[block.as_slice(), count.as_slice(), before.as_slice()],
    )
}

// What a block can do, and in what it is counted.
fn deed(measure: Measure) -> (&'static [u8], &'static [u8])
    ensures can { result.0.now ≡ can_text measure }
    ensures unit { result.1.now ≡ unit_text measure }
{
    match measure {
        Measure::Load => (b" can make ", b" requests"),
        Measure::Weight => (b" can take ", b" steps"),
    }
}

// Which limit is passed.
fn say_limit(alloc: Global, measure: Measure) -> Result<Vec<u8>, AllocError>
    ensures said { IfOk result (λ out. out.items ≡ cause_text measure) }
{
    let (can, unit) = deed(measure);
    let most = digits(alloc, limit(measure) as usize)?;
    joined(
        alloc,
        &[
            b"the blocks of this script",
            can,
            b"more than ",
            most.as_slice(),
            unit,
            b" in all",
        ],
    )
}

fn help(measure: Measure) -> &'static [u8]
    ensures exact { result.now ≡ help_text measure }
{
    match measure {
        Measure::Load => {
            b"a `repeat N` counts its body N times, and an `if` the greater of its two bodies"
        }
        Measure::Weight => {
            b"a `repeat N` counts its body N times and one more, and an `if` the greater of its two bodies"
        }
    }
}

/// What is said of the block with which a script passes a limit, at the token of its anchor.
pub(crate) fn say_excess(
    alloc: Global,
    source: Source<'_>,
    place: usize,
    excess: Excess,
) -> Result<Said, AllocError>
    ensures span { IfOk result (λ said. said.span ≡ span_in source.entry.text.now source.entry.tokens.now place) }
    ensures cause { IfOk result (λ said. said.cause.items ≡ cause_text excess.measure) }
    ensures label { IfOk result (λ said. said.label.items ≡ label_text (token_in source.entry.tokens.now place) excess) }
    ensures help { IfOk result (λ said. said.help.items ≡ help_text excess.measure) }
{
    let label = say_label(alloc, source.token(place), excess)?;
    let cause = say_limit(alloc, excess.measure)?;
    say(
        alloc,
        source.span(place),
        &[cause.as_slice()],
        &[label.as_slice()],
        &[help(excess.measure)],
    )
}
