//! Whether a condition holds where an order has come to its end.

ghost use Rattle.std.specs.Prelude.{◌≡◌, IfOk, OnOk, length};
ghost use Rattle.qs_program.specs.audit.Values.{relates};
ghost use Rattle.qs_conditions.specs.Conditions.{Tree, steps_of};
ghost use Rattle.qs_meaning.specs.Configurations.{outcome_in};
ghost use Rattle.qs_standings.specs.Standings.{configuration_in};
ghost use Rattle.qs_questions.specs.Answering.{answer_of, answered};
ghost use Rattle.qs_questions.specs.Questions.{holds_at, value_at};

use crate::stack::Answers;
use crate::values::sum_at;
use qs_conditions::{Condition, Relation, Step};
use qs_program::Program;
use qs_standings::Standing;
use std::alloc::{AllocError, Global};

// Whether two numbers are related.
fn relates(relation: Relation, left: i128, right: i128) -> bool
    ensures relates { result ≡ relates relation left right }
{
    match relation {
        Relation::Equal => left == right,
        Relation::Unequal => left != right,
        Relation::Less => left < right,
        Relation::AtMost => left <= right,
        Relation::Greater => left > right,
        Relation::AtLeast => left >= right,
    }
}

// Takes one step. An error says that memory was refused.
fn take_step(
    alloc: Global,
    program: &Program,
    standing: &Standing,
    step: &Step,
    answers: &mut Answers,
) -> Result<(), AllocError>
    requires clients { length standing.now.locals ≡ length program.now.clients }
    requires objects { length standing.now.states ≡ length program.now.objects }
    ensures answered { OnOk result (answers.new
        ≡ answered (value_at program.now (outcome_in (configuration_in standing.now))) answers.old step.now) }
{
    let answer = match step {
        Step::Compare(left, relation, right) => {
            let left = sum_at(alloc, program, standing, left)?;
            let right = sum_at(alloc, program, standing, right)?;
            relates(*relation, left, right)
        }
        Step::Not => !answers.pop(),
        Step::And => {
            let second = answers.pop();
            let first = answers.pop();
            first && second
        }
        Step::Or => {
            let second = answers.pop();
            let first = answers.pop();
            first || second
        }
    };
    answers.push(answer)
}

/// Whether a condition holds where the order of a standing has come to its end. Sums are exact. An error says that
/// memory was refused.
pub fn holds(
    alloc: Global,
    condition: &Condition,
    program: &Program,
    standing: &Standing,
) -> Result<bool, AllocError>
    requires clients { length standing.now.locals ≡ length program.now.clients }
    requires objects { length standing.now.states ≡ length program.now.objects }
    ensures answer { IfOk result (λ answer. answer
        ≡ answer_of (value_at program.now (outcome_in (configuration_in standing.now))) condition.now) }
    ensures exact { (tree : Tree) → condition.now ≡ steps_of tree
        → IfOk result (λ answer. answer ≡ holds_at program.now tree (outcome_in (configuration_in standing.now))) }
{
    let mut answers = Answers::new(alloc);
    for step in condition.as_slice() {
        take_step(alloc, program, standing, step, &mut answers)?;
    }
    Ok(answers.pop())
}
