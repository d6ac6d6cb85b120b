// Conditions, whose steps are added as soon as they are read.

ghost use Rattle.std.specs.Prelude.{◌≡◌, ◌<◌, ◌≤◌, length, IfOk};
ghost use Rattle.qs_conditions.specs.Reading.{comparison_at, part_in, both_in, either_in, negation_of, nested_of};
ghost use Rattle.qs_conditions.specs.Results.{Adds};

use crate::condition::{Condition, Step};
use crate::expect::{closed, past_and, past_or, relation};
use crate::fault::SignFault;
use crate::signs::{Placed, Sign};
use crate::values::sum;
use std::alloc::Global;

// Adds a comparison of two sums.
fn comparison<'t>(
    alloc: Global,
    steps: &mut Condition,
    signs: &'t [Placed],
) -> Result<&'t [Placed], SignFault>
    ensures exact { Adds steps.old steps.new result (comparison_at signs.now) }
    ensures shorter { IfOk result (λ rest. length rest.now < length signs.now) }
{
    let (left, rest) = sum(alloc, signs)?;
    let (relation, rest) = relation(rest)?;
    let (right, rest) = sum(alloc, rest)?;
    steps.push(Step::Compare(left, relation, right))?;
    Ok(rest)
}

// Adds conditions with || between them, where at most `nested` of ! and ( may stand one inside another.
#[cycle(either)]
pub(crate) fn either<'t>(
    alloc: Global,
    nested: u8,
    steps: &mut Condition,
    signs: &'t [Placed],
) -> Result<&'t [Placed], SignFault>
    ensures exact { Adds steps.old steps.new result (either_in nested signs.now) }
    ensures shorter { IfOk result (λ rest. length rest.now < length signs.now) }
{
    let mut rest = both(alloc, nested, steps, signs)?;
    'each: loop {
        let Some(after) = past_or(rest) else {
            return Ok(rest);
        };
        rest = both(alloc, nested, steps, after)?;
        steps.push(Step::Or)?;
    }
}

// Adds conditions with && between them.
#[cycle(either)]
fn both<'t>(
    alloc: Global,
    nested: u8,
    steps: &mut Condition,
    signs: &'t [Placed],
) -> Result<&'t [Placed], SignFault>
    ensures exact { Adds steps.old steps.new result (both_in nested signs.now) }
    ensures shorter { IfOk result (λ rest. length rest.now < length signs.now) }
{
    let mut rest = part(alloc, nested, steps, signs)?;
    'each: loop {
        let Some(after) = past_and(rest) else {
            return Ok(rest);
        };
        rest = part(alloc, nested, steps, after)?;
        steps.push(Step::And)?;
    }
}

// Adds a negation, a condition in brackets or a comparison.
#[cycle(either)]
fn part<'t>(
    alloc: Global,
    nested: u8,
    steps: &mut Condition,
    signs: &'t [Placed],
) -> Result<&'t [Placed], SignFault>
    ensures exact { Adds steps.old steps.new result (part_in nested signs.now) }
    ensures shorter { IfOk result (λ rest. length rest.now < length signs.now) }
{
    if nested == 0 {
        return comparison(alloc, steps, signs);
    }
    match signs {
        [
            Placed {
                sign: Sign::Not,
                ..
            },
            rest @ ..,
        ] => negation(alloc, nested - 1, steps, rest),
        [
            Placed {
                sign: Sign::Open,
                ..
            },
            rest @ ..,
        ] => inner(alloc, nested - 1, steps, rest),
        _ => comparison(alloc, steps, signs),
    }
}

// Adds a negation, after its sign.
#[cycle(either)]
fn negation<'t>(
    alloc: Global,
    nested: u8,
    steps: &mut Condition,
    signs: &'t [Placed],
) -> Result<&'t [Placed], SignFault>
    ensures exact { Adds steps.old steps.new result (negation_of (part_in nested) signs.now) }
    ensures shorter { IfOk result (λ rest. length rest.now < length signs.now) }
{
    let rest = part(alloc, nested, steps, signs)?;
    steps.push(Step::Not)?;
    Ok(rest)
}

// Adds a condition in brackets, after the one that opens.
#[cycle(either)]
fn inner<'t>(
    alloc: Global,
    nested: u8,
    steps: &mut Condition,
    signs: &'t [Placed],
) -> Result<&'t [Placed], SignFault>
    ensures exact { Adds steps.old steps.new result (nested_of (part_in nested) signs.now) }
    ensures shorter { IfOk result (λ rest. length rest.now < length signs.now) }
{
    let rest = either(alloc, nested, steps, signs)?;
    closed(rest)
}
