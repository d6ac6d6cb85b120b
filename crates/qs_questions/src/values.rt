//! What the values of a condition are where an order has come to its end.

ghost use Rattle.std.specs.Prelude.{◌≡◌, IfOk, if◌then◌else◌, length, pos, ◌-ℤ◌, ◌≤ℤ◌};
ghost use Rattle.qs_conditions.specs.Conditions.{sum_of};
ghost use Rattle.qs_meaning.specs.Configurations.{outcome_in};
ghost use Rattle.qs_standings.specs.Standings.{configuration_in};
ghost use Rattle.qs_questions.specs.Questions.{reply_to, reply_value, value_at, variable_of, variable_value};

use crate::named::{ClientVariable, asked_of, variable_of};
use qs_conditions::{Args, Name, Sum, Value};
use qs_objects::{Object, Op, Request};
use qs_program::Program;
use qs_standings::Standing;
use std::alloc::{AllocError, Global};

// What an object replies to a query, which is put to a copy; 0 where it replies nothing.
fn reply_to(alloc: Global, object: &Object, op: Op, args: &Args) -> Result<i64, AllocError>
    ensures reply { IfOk result (λ reply. reply ≡ reply_to object.now op args.now) }
{
    let mut copy = object.copied(alloc)?;
    let request = Request {
        object: 0,
        op,
        args: args.copied(),
    };
    Ok(copy.apply(&request).unwrap_or(0))
}

// What a client's variable is; 0 where the names stand for none.
fn variable_value(program: &Program, standing: &Standing, client: &Name, name: &Name) -> i64
    requires clients { length standing.now.locals ≡ length program.now.clients }
    ensures value { result
        ≡ variable_value (outcome_in (configuration_in standing.now)) (variable_of program.now client.now name.now) }
{
    let Some(variable) = variable_of(program, client, name) else {
        return 0;
    };
    let locals = standing.locals(variable.client);
    locals.get(variable.number).copied().unwrap_or(0)
}

// What a value is. An error says that memory was refused.
fn value_at(
    alloc: Global,
    program: &Program,
    standing: &Standing,
    value: &Value,
) -> Result<i64, AllocError>
    requires clients { length standing.now.locals ≡ length program.now.clients }
    requires objects { length standing.now.states ≡ length program.now.objects }
    ensures value { IfOk result (λ number. number
        ≡ value_at program.now (outcome_in (configuration_in standing.now)) value.now) }
{
    match value {
        Value::Number(number) => Ok(*number),
        Value::Variable(client, name) => Ok(variable_value(program, standing, client, name)),
        Value::Reply(object, word, args) => {
            match asked_of(program, object, word, args.as_slice().len()) {
                None => Ok(0),
                Some(query) => reply_to(alloc, standing.object(query.object), query.op, args),
            }
        }
    }
}

// A value that is added, or taken away: within 64 bits and a sign.
fn signed(negative: bool, value: i64) -> i128
    ensures signed { result ≡ if negative then pos 0 -ℤ value else value }
    ensures above { (pos 0 -ℤ pos 9223372036854775808) ≤ℤ result }
    ensures below { result ≤ℤ pos 9223372036854775808 }
{
    if negative {
        -i128::from(value)
    } else {
        i128::from(value)
    }
}

// What a sum comes to, exactly. Fewer than 2^64 values of 64 bits cannot leave the range of 128 bits. An error says
// that memory was refused.
pub(crate) fn sum_at(
    alloc: Global,
    program: &Program,
    standing: &Standing,
    sum: &Sum,
) -> Result<i128, AllocError>
    requires clients { length standing.now.locals ≡ length program.now.clients }
    requires objects { length standing.now.states ≡ length program.now.objects }
    ensures sum { IfOk result (λ number. number
        ≡ sum_of (value_at program.now (outcome_in (configuration_in standing.now))) sum.now) }
{
    let mut total: i128 = 0;
    for summand in sum.as_slice() {
        let value = value_at(alloc, program, standing, &summand.value)?;
        total += signed(summand.negative, value);
    }
    Ok(total)
}
