//! Answers to claims.

ghost use Rattle.std.specs.Prelude.{◌≤◌, IfOk, IsErrOf};
ghost use Rattle.qs_alike.specs.Texts.{classes_in};
ghost use Rattle.qs_meaning.specs.audit.Serial.{IsLegal};
ghost use Rattle.qs_questions.specs.Claims.{HasMoreFor, IsAnswerTo, is_sought};
ghost use Rattle.qs_questions.specs.NamedClients.{AreClassesFor};
ghost use Rattle.qs_serial.specs.audit.NamedOrders.{order_of};

use crate::asking::holds;
use crate::clients::named_clients;
use qs_alike::{Classes, classes_apart, classes_of};
use qs_conditions::{Claim, Condition, Quantifier};
use qs_outcomes::throughout::ask_throughout;
use qs_outcomes::{Answer, OutcomesFault, Question, Standing, Watcher, ask_watched};
use qs_program::Program;
use std::alloc::{AllocError, Global};

// The outcomes that the answer to a claim looks for: those of which its condition holds, or does not.
#[derive(Drop)]
struct Sought<'a> {
    claim: &'a Claim,
}

impl Question for Sought<'_> {
    ghost asked = { λ sought. is_sought sought.claim.now };

    fn is_met(
        &self,
        alloc: Global,
        program: &Program,
        standing: &Standing,
    ) -> Result<bool, AllocError> {
        let holds = holds(alloc, &self.claim.condition, program, standing)?;
        match self.claim.quantifier {
            Quantifier::Always | Quantifier::Throughout => Ok(!holds),
            Quantifier::Some | Quantifier::Ever | Quantifier::Never => Ok(holds),
        }
    }
}

// The classes of a program's clients, where each client whose variable a condition names is alone.
fn classes_for(condition: &Condition, program: &Program) -> Classes
    ensures classes { AreClassesFor program.now condition.now (classes_in result) }
{
    classes_apart(
        program,
        &classes_of(program),
        named_clients(condition, program),
    )
}

/// The answer to a claim on a program, after the blocks that a list of clients names, by a search that stops at the
/// first witness. Of all configurations that differ by a change of alike clients it looks at one; clients whose variables
/// the condition names change places with nobody. `Order` comes exactly where no legal order is named, `Limit` only where
/// there are more configurations than the limit, `Memory` where memory was refused. The watcher hears of each new
/// configuration.
pub fn answer<W: Watcher>(
    alloc: Global,
    program: &Program,
    claim: &Claim,
    front: &[u8],
    limit: u32,
    watcher: &mut W,
) -> Result<Answer, OutcomesFault>
    ensures answer { IfOk result (IsAnswerTo claim.now program.now (order_of front.now)) }
    ensures within { IfOk result (λ answer. answer.configurations ≤ limit) }
    ensures limit { IsErrOf result OutcomesFault.Limit → HasMoreFor claim.now program.now (order_of front.now) limit }
    ensures order { IsErrOf result OutcomesFault.Order → ¬ IsLegal program.now (order_of front.now) }
{
    let classes = classes_for(&claim.condition, program);
    let sought = Sought { claim };
    match claim.quantifier {
        Quantifier::Always | Quantifier::Some => {
            ask_watched(alloc, program, &classes, front, limit, &sought, watcher)
        }
        Quantifier::Throughout | Quantifier::Ever | Quantifier::Never => {
            ask_throughout(alloc, program, &classes, front, limit, &sought, watcher)
        }
    }
}
