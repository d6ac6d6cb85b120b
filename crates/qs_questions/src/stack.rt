//! The answers on the way to the answer of a condition.

ghost use Rattle.std.specs.Prelude.{◌≡◌, [], ◌∷◌, OnOk, drop};
ghost use Rattle.qs_questions.specs.Answering.{last_of};

use qs_script::tree::add;
use std::alloc::{AllocError, Global};
use std::marker::Model;

/// A stack of answers. Contracts see it as a list, the last answer first.
#[derive(Drop)]
pub struct Answers {
    answers: Vec<bool>,
}

impl Model for Answers {
    ghost use Rattle.std.specs.Prelude.{List, Bool};
    ghost use Rattle.std.specs.Prelude.{reverse};

    ghost Value = { List Bool };

    ghost view = { λ a. reverse a.answers.items };
}

impl Answers {
    /// No answers; takes no memory.
    pub fn new(alloc: Global) -> Answers
        ensures empty { result ≡ [] }
    {
        Answers {
            answers: Vec::new(alloc),
        }
    }

    /// Puts one more answer on the stack. An error says that memory was refused.
    pub fn push(&mut self, answer: bool) -> Result<(), AllocError>
        ensures pushed { OnOk result (self.new ≡ answer ∷ self.old) }
    {
        add(&mut self.answers, answer)
    }

    /// Takes the last answer off; false where there is none.
    pub fn pop(&mut self) -> bool
        ensures last { result ≡ last_of self.old }
        ensures rest { self.new ≡ drop 1 self.old }
    {
        self.answers.pop().unwrap_or(false)
    }
}
