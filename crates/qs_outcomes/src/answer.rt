//! The answer to a question.

ghost use Rattle.std.specs.Prelude.{◌≡◌, IfSome, is_some};

use qs_standings::Standing;
use std::marker::Model;

/// The answer to a question: a witness, where there is one, and how many configurations were noted until then.
#[derive(Drop)]
pub struct Answer {
    pub witness: Option<Standing>,
    pub configurations: usize,
}

impl Model for Answer {
    ghost use Rattle.qs_outcomes.specs.Answers.{AnswerShape};

    ghost Value = { AnswerShape };

    ghost view = { λ a. record { witness = a.witness; configurations = a.configurations } };
}
