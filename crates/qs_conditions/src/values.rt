// Values and their sums.

ghost use Rattle.std.specs.Prelude.{◌≡◌, ◌<◌, ◌≤◌, ◌+◌, length, IfOk};
ghost use Rattle.qs_conditions.specs.Reading.{chain, number_at, more_at, args_at, variable_or, found, open_by, named_at, value_at, summand_at, first_at, sum_further, sum_at};
ghost use Rattle.qs_conditions.specs.Results.{Gives};

use crate::condition::{Sum, Summand, Value};
use crate::expect::{
    comma, dot, first_place, name as expect_name, past_close, past_link, past_minus, past_open,
};
use crate::fault::SignFault;
use crate::signs::{Placed, Sign};
use qs_objects::Args;
use qs_script::tokens::Name;
use std::alloc::Global;

// A number that may have a minus.
fn number(signs: &[Placed]) -> Result<(i64, &[Placed]), SignFault>
    ensures exact { Gives (λ x. (x.0, x.1.now)) result (number_at signs.now) }
    ensures shorter { IfOk result (λ x. length x.1.now < length signs.now) }
{
    match signs {
        [
            Placed {
                sign: Sign::Number(number),
                ..
            },
            rest @ ..,
        ] => Ok((number.value(), rest)),
        [
            Placed {
                sign: Sign::Minus,
                ..
            },
            Placed {
                sign: Sign::Number(number),
                ..
            },
            rest @ ..,
        ] => { Ok((-number.value(), rest)) }
        [
            Placed {
                sign: Sign::Minus,
                ..
            },
            rest @ ..,
        ] => Err(SignFault::Form(rest.len())),
        _ => Err(SignFault::Form(signs.len())),
    }
}

// The arguments from these on, of which at most `left` may follow, and the bracket that closes them.
fn more(left: u8, before: Args, signs: &[Placed]) -> Result<(Args, &[Placed]), SignFault>
    requires room { left + length before ≤ 3 }
    ensures exact { Gives (λ x. (x.0, x.1.now)) result (more_at left before signs.now) }
    ensures shorter { IfOk result (λ x. length x.1.now < length signs.now) }
{
    if let Some(rest) = past_close(signs) {
        return Ok((before, rest));
    }
    if left == 0 {
        return Err(SignFault::Form(signs.len()));
    }
    let rest = comma(signs)?;
    let (number, rest) = number(rest)?;
    let mut numbers = before;
    numbers.push(number);
    more(left - 1, numbers, rest)
}

// The arguments, and the bracket that closes them.
fn args(alloc: Global, signs: &[Placed]) -> Result<(Args, &[Placed]), SignFault>
    ensures exact { Gives (λ x. (x.0, x.1.now)) result (args_at signs.now) }
    ensures shorter { IfOk result (λ x. length x.1.now < length signs.now) }
{
    let mut numbers = Args::new(alloc);
    if let Some(rest) = past_close(signs) {
        return Ok((numbers, rest));
    }
    let (number, rest) = number(signs)?;
    numbers.push(number);
    more(2, numbers, rest)
}

// A value that begins with that name.
fn named(alloc: Global, first: Name, signs: &[Placed]) -> Result<(Value, &[Placed]), SignFault>
    ensures exact { Gives (λ x. (x.0, x.1.now)) result (named_at first signs.now) }
    ensures shorter { IfOk result (λ x. length x.1.now < length signs.now) }
{
    let rest = dot(signs)?;
    let (second, rest) = expect_name(rest)?;
    match past_open(rest) {
        Some(rest) => {
            let (args, rest) = args(alloc, rest)?;
            Ok((Value::Reply(first, second, args), rest))
        }
        None => Ok((Value::Variable(first, second), rest)),
    }
}

fn value(alloc: Global, signs: &[Placed]) -> Result<(Value, &[Placed]), SignFault>
    ensures exact { Gives (λ x. (x.0, x.1.now)) result (value_at signs.now) }
    ensures shorter { IfOk result (λ x. length x.1.now < length signs.now) }
{
    match signs {
        [
            Placed {
                sign: Sign::Number(number),
                ..
            },
            rest @ ..,
        ] => { Ok((Value::Number(number.value()), rest)) }
        [
            Placed {
                sign: Sign::Name(name),
                ..
            },
            rest @ ..,
        ] => named(alloc, name.copied(), rest),
        _ => Err(SignFault::Form(signs.len())),
    }
}

// A value that is added, or taken away.
fn summand(
    alloc: Global,
    negative: bool,
    signs: &[Placed],
) -> Result<(Summand, &[Placed]), SignFault>
    ensures exact { Gives (λ x. (x.0, x.1.now)) result (summand_at negative signs.now) }
    ensures shorter { IfOk result (λ x. length x.1.now < length signs.now) }
{
    let place = first_place(0, signs);
    let (value, rest) = value(alloc, signs)?;
    Ok((
        Summand {
            place,
            negative,
            value,
        },
        rest,
    ))
}

// The first value of a sum.
fn first(alloc: Global, signs: &[Placed]) -> Result<(Summand, &[Placed]), SignFault>
    ensures exact { Gives (λ x. (x.0, x.1.now)) result (first_at signs.now) }
    ensures shorter { IfOk result (λ x. length x.1.now < length signs.now) }
{
    match past_minus(signs) {
        Some(rest) => summand(alloc, true, rest),
        None => summand(alloc, false, signs),
    }
}

// The sum that goes on from these values.
fn further(alloc: Global, before: Sum, signs: &[Placed]) -> Result<(Sum, &[Placed]), SignFault>
    ensures exact { Gives (λ x. (x.0, x.1.now)) result (chain sum_further before signs.now) }
    ensures within { IfOk result (λ x. length x.1.now ≤ length signs.now) }
{
    let mut sum = before;
    let mut rest = signs;
    'each: loop {
        let Some((negative, after)) = past_link(rest) else {
            return Ok((sum, rest));
        };
        let (summand, after) = summand(alloc, negative, after)?;
        sum.push(summand)?;
        rest = after;
    }
}

pub(crate) fn sum(alloc: Global, signs: &[Placed]) -> Result<(Sum, &[Placed]), SignFault>
    ensures exact { Gives (λ x. (x.0, x.1.now)) result (sum_at signs.now) }
    ensures shorter { IfOk result (λ x. length x.1.now < length signs.now) }
{
    let (summand, rest) = first(alloc, signs)?;
    let mut sum = Sum::new(alloc);
    sum.push(summand)?;
    further(alloc, sum, rest)
}
