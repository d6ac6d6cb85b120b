//! Which values a sum has at ends of orders.

ghost use Rattle.std.specs.Prelude.{◌≡◌, ◌<◌, ◌≤◌, ◌+◌, ◌^◌, Decides, IfOk, OnOk, length, take, drop};
ghost use Rattle.std.specs.List.{AllByRecursion};
ghost use Rattle.qs_outcomes.specs.Outcomes.{HasPlaces};
ghost use Rattle.qs_questions.specs.Noting.{AreBelow, IsNoted, StartsFrom, with_more};
ghost use Rattle.qs_questions.specs.SumValues.{AreAscending, AreListed, AreWithin, IsValueIn, sums_at};

use crate::values::sum_at;
use qs_conditions::Sum;
use qs_program::Program;
use qs_standings::Standing;
use std::alloc::{AllocError, Global};

/// A value that a sum has at ends: at how many of them, and the place of the first in their list.
#[derive(Clone, Copy, Debug)]
pub struct SumValue {
    pub value: i128,
    pub ends: usize,
    pub first: usize,
}

// The place of the first of these values that is not less than a number.
fn place_of(values: &[SumValue], number: i128) -> usize
    ensures within { result ≤ length values.now }
    ensures below { AreBelow number (take result values.now) }
    ensures from { StartsFrom number (drop result values.now) }
{
    for (place, listed) in values.iter().enumerate() {
        if listed.value >= number {
            return place;
        }
    }
    values.len()
}

// Whether a value is that number.
fn is_of(listed: SumValue, number: i128) -> bool
    ensures same { Decides result (listed.value ≡ number) }
{
    listed.value == number
}

// The value, with one more end.
fn with_more(listed: SumValue) -> SumValue
    requires room { listed.ends + 1 < 2 ^ 64 }
    ensures more { result ≡ with_more listed }
{
    SumValue {
        value: listed.value,
        ends: listed.ends + 1,
        first: listed.first,
    }
}

// Notes the value of one more end, whose place in the list of ends is given.
fn note(values: &mut Vec<SumValue>, value: i128, end: usize) -> Result<(), AllocError>
    requires few { AllByRecursion (λ x. x.ends ≤ end) values.old.items }
    requires room { end + 1 < 2 ^ 64 }
    ensures noted { OnOk result (IsNoted value end values.old.items values.new.items) }
{
    let place = place_of(values.as_slice(), value);
    if place < values.len() {
        let listed = values[place];
        if is_of(listed, value) {
            values[place] = with_more(listed);
            return Ok(());
        }
    }
    let first = SumValue {
        value,
        ends: 1,
        first: end,
    };
    values.insert(place, first)?;
    Ok(())
}

/// The values that a sum has at these ends, in ascending order: each with the number of ends at which the sum has it,
/// and the place of the first of these. Sums are exact. An error says that memory was refused, and nothing is left.
pub fn values_of(
    alloc: Global,
    program: &Program,
    sum: &Sum,
    ends: &[Standing],
) -> Result<Vec<SumValue>, AllocError>
    requires places { AllByRecursion (HasPlaces program.now) ends.now }
    ensures ascending { IfOk result (λ values. AreAscending values.items) }
    ensures listed { IfOk result (λ values. AreListed (sums_at program.now sum.now ends.now) values.items) }
    ensures exact { IfOk result (λ values. AllByRecursion (IsValueIn (sums_at program.now sum.now ends.now)) values.items) }
    ensures within { IfOk result (λ values. AreWithin ends.now values.items) }
{
    let mut values = Vec::new(alloc);
    for (place, end) in ends.iter().enumerate() {
        let value = sum_at(alloc, program, end, sum)?;
        note(&mut values, value, place)?;
    }
    Ok(values)
}
