//! Conditions: sums that are compared, and what is made of comparisons.

ghost use Rattle.std.specs.Prelude.{◌≡◌, [], ◌∷◌, ◌++◌, OnOk};

use qs_objects::Args;
use qs_script::tokens::Name;
use qs_script::tree::{Relation, add};
use std::alloc::{AllocError, Global};
use std::marker::Model;

/// What a condition asks for: a number, a client's variable, or the reply of an object to a query.
#[derive(Drop)]
pub enum Value {
    Number(i64),
    Variable(Name, Name),
    Reply(Name, Name, Args),
}

/// A value that is added, or taken away; and the place in the condition's text where its first name or number begins.
#[derive(Drop)]
pub struct Summand {
    pub place: usize,
    pub negative: bool,
    pub value: Value,
}

/// Values that are added up. Contracts see them as a list.
#[derive(Drop)]
pub struct Sum {
    summands: Vec<Summand>,
}

impl Model for Sum {
    ghost use Rattle.std.specs.Prelude.{List};
    ghost use Rattle.qs_conditions.specs.declared.condition.Summand.{Summand};

    ghost Value = { List Summand };

    ghost view = { λ s. s.summands.items };
}

impl Sum {
    /// No values; takes no memory.
    pub fn new(alloc: Global) -> Sum
        ensures empty { result ≡ [] }
    {
        Sum {
            summands: Vec::new(alloc),
        }
    }

    /// Adds a value at the end.
    pub fn push(&mut self, summand: Summand) -> Result<(), AllocError>
        ensures added { OnOk result (self.new ≡ self.old ++ summand ∷ []) }
    {
        add(&mut self.summands, summand)
    }

    /// The values in the order in which they are written.
    pub fn as_slice(&self) -> &[Summand]
        ensures same { result.now ≡ self.now }
    {
        self.summands.as_slice()
    }
}

/// A step of an answer, which works on a stack of answers: a comparison adds one, `Not` turns the last, and `And` and
/// `Or` put one in the place of the last two.
#[derive(Drop)]
pub enum Step {
    Compare(Sum, Relation, Sum),
    Not,
    And,
    Or,
}

/// A condition, as the steps by which it is answered. Contracts see it as the list of these.
#[derive(Drop)]
pub struct Condition {
    steps: Vec<Step>,
}

impl Model for Condition {
    ghost use Rattle.std.specs.Prelude.{List};
    ghost use Rattle.qs_conditions.specs.declared.condition.Step.{Step};

    ghost Value = { List Step };

    ghost view = { λ c. c.steps.items };
}

impl Condition {
    /// No steps; takes no memory.
    pub(crate) fn new(alloc: Global) -> Condition
        ensures empty { result ≡ [] }
    {
        Condition {
            steps: Vec::new(alloc),
        }
    }

    /// Adds a step at the end.
    pub(crate) fn push(&mut self, step: Step) -> Result<(), AllocError>
        ensures added { OnOk result (self.new ≡ self.old ++ step ∷ []) }
    {
        add(&mut self.steps, step)
    }

    /// The steps in order.
    pub fn as_slice(&self) -> &[Step]
        ensures same { result.now ≡ self.now }
    {
        self.steps.as_slice()
    }
}
