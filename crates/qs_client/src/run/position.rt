//! The position of a client in the graph of a block.

ghost use Rattle.std.specs.Prelude.{◌≡◌, ◌<◌, ◌≤◌, ℕ, if◌then◌else◌, length};
ghost use Rattle.qs_program.specs.audit.Values.{request_of};
ghost use Rattle.qs_graph.specs.audit.Walk.{after_local, at_node, after_branch, with_value};
ghost use Rattle.qs_client.specs.run.Beginning.{restart};

use qs_graph::{Action, Choice};
use qs_objects::Request;
use qs_program::{Call, Locals, set_variable};
use std::marker::Model;

/// A node, the client's variables, and for each node the count of the repeat whose branch it is.
#[derive(Drop)]
pub struct Position {
    node: usize,
    locals: Locals,
    counts: Vec<u64>,
}

impl Model for Position {
    ghost use Rattle.qs_graph.specs.audit.Walk.{Spot};

    ghost Value = { Spot };

    ghost view = { λ w. record { node = w.node; locals = w.locals; counts = w.counts.items } };
}

impl Position {
    /// At the node of this number, with these variables and counts.
    pub fn new(node: usize, locals: Locals, counts: Vec<u64>) -> Position
        ensures value { result ≡ record { node = node; locals = locals; counts = counts.items } }
    {
        Position {
            node,
            locals,
            counts,
        }
    }

    /// The node's number.
    pub fn node(&self) -> usize
        ensures value { result ≡ self.now.node }
    {
        self.node
    }

    /// The client's variables.
    pub fn locals(&self) -> &Locals
        ensures value { result.now ≡ self.now.locals }
    {
        &self.locals
    }

    /// The request that a command or a query makes here.
    pub fn request(&self, call: &Call) -> Request
        requires few { length call.now.args ≤ 3 }
        ensures value { result ≡ request_of self.now.locals call.now }
    {
        call.request(*self.counts.allocator(), &self.locals)
    }

    /// To the first node, with all counts 0.
    pub fn restart(&mut self)
        ensures value { self.new ≡ restart self.old }
    {
        self.node = 0;
        self.counts.fill(0);
    }

    /// To another node.
    pub fn go_to(&mut self, node: usize)
        ensures value { self.new ≡ at_node self.old node }
    {
        self.node = node;
    }

    /// Gives a variable a value.
    pub fn assign(&mut self, variable: u8, value: i64)
        ensures value { self.new ≡ with_value self.old variable value }
    {
        set_variable(&mut self.locals, variable, value);
    }

    /// What a local node does, and on to the next.
    pub fn act(&mut self, action: Action, next: usize)
        requires counted { next < length self.old.counts }
        ensures acted { self.new ≡ after_local action self.old next }
    {
        match action {
            Action::Assign(variable, expr) => {
                let value = expr.value(&self.locals);
                self.assign(variable, value);
            }
            Action::SetCount(count) => {
                self.counts[next] = count;
            }
            Action::Nothing => {}
        }
        self.node = next;
    }

    /// Whether a branch goes to the first of its two nodes. A repeat counts then.
    pub fn chooses(&mut self, choice: Choice) -> bool
        requires counted { self.old.node < length self.old.counts }
        ensures chosen { (first second : ℕ) → at_node self.new (if result then first else second) ≡ after_branch choice self.old first second }
    {
        match choice {
            Choice::If(test) => test.is_met(&self.locals),
            Choice::Repeat => {
                let count = self.counts[self.node];
                if count == 0 {
                    return false;
                }
                self.counts[self.node] = count - 1;
                true
            }
        }
    }
}
