//! Whether a program has what a condition, or a sum, asks for.

ghost use Rattle.std.specs.Prelude.{◌≡◌, ◌↔◌, [], ◌∷◌, None};
ghost use Rattle.qs_conditions.specs.Conditions.{Tree, steps_of};
ghost use Rattle.qs_questions.specs.Questions.{HasAllValues, HasValues, first_unknown_in, first_unknown_of, has_value};

use crate::named::{asked_of, variable_of};
use qs_conditions::{Condition, Step, Sum, Value};
use qs_program::Program;

// Whether the program has a value.
fn has_value(program: &Program, value: &Value) -> bool
    ensures has { result ≡ has_value program.now value.now }
{
    match value {
        Value::Number(_) => true,
        Value::Variable(client, name) => variable_of(program, client, name).is_some(),
        Value::Reply(object, word, args) => {
            asked_of(program, object, word, args.as_slice().len()).is_some()
        }
    }
}

// The place of the first summand whose value the program does not have.
fn first_unknown_of(program: &Program, sum: &Sum) -> Option<usize>
    ensures first { result ≡ first_unknown_of program.now sum.now }
{
    for summand in sum.as_slice() {
        if !has_value(program, &summand.value) {
            return Some(summand.place);
        }
    }
    None
}

// The same of one step.
fn first_unknown_at(program: &Program, step: &Step) -> Option<usize>
    ensures first { result ≡ first_unknown_in program.now (step.now ∷ []) }
{
    let Step::Compare(left, _, right) = step else {
        return None;
    };
    match first_unknown_of(program, left) {
        None => first_unknown_of(program, right),
        place => place,
    }
}

/// The place of the first summand, in the order of the steps, whose value the program does not have. None exactly where
/// it has all.
pub fn first_unknown(condition: &Condition, program: &Program) -> Option<usize>
    ensures exact { result ≡ first_unknown_in program.now condition.now }
    ensures all { (tree : Tree) → condition.now ≡ steps_of tree
        → (result ≡ None) ↔ HasAllValues program.now tree }
{
    for step in condition.as_slice() {
        let place = first_unknown_at(program, step);
        if place.is_some() {
            return place;
        }
    }
    None
}

/// The place of the first value of a sum that the program does not have. None exactly where it has all.
pub fn first_unknown_in_sum(sum: &Sum, program: &Program) -> Option<usize>
    ensures exact { result ≡ first_unknown_of program.now sum.now }
    ensures all { (result ≡ None) ↔ HasValues program.now sum.now }
{
    first_unknown_of(program, sum)
}
