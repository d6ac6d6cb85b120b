//! What is asked of outcomes.

ghost use Rattle.std.specs.Prelude.{◌≡◌, Bool, false, IfOk};
ghost use Rattle.qs_program.specs.audit.Program.{ProgramShape as program_shape};
ghost use Rattle.qs_meaning.specs.Configurations.{OrderOutcome as order_outcome};
ghost use Rattle.qs_outcomes.specs.Outcomes.{HasPlaces, outcome_at};

use qs_program::Program;
use qs_standings::Standing;
use std::alloc::{AllocError, Global};

/// A question to each outcome of a program: whether it is what is looked for.
pub trait Question {
    ghost asked: { Self → program_shape → order_outcome → Bool };

    /// Whether the outcome where a program stands is what is looked for. An error says that memory was refused.
    fn is_met(
        &self,
        alloc: Global,
        program: &Program,
        standing: &Standing,
    ) -> Result<bool, AllocError>
        requires places { HasPlaces program.now standing.now }
        ensures met { IfOk result (λ met. met ≡ asked self.now program.now (outcome_at standing.now)) };
}

// What no outcome is.
#[derive(Drop)]
pub(crate) struct Nothing;

impl Question for Nothing {
    ghost asked = { λ _ _ _. false };

    fn is_met(
        &self,
        _alloc: Global,
        _program: &Program,
        _standing: &Standing,
    ) -> Result<bool, AllocError> {
        Ok(false)
    }
}
