//! What the nodes of a graph do, with the expressions of their statements.

use qs_objects::Kind;
use qs_program::{Call, Expr, Test};

/// What a local node does.
#[derive(Clone, Copy, Debug)]
pub enum Action {
    /// Gives a variable the value of an expression.
    Assign(u8, Expr),
    /// Sets the count of the repeat whose branch comes next.
    SetCount(u64),
    /// Nothing: a `leave`, or a synchronisation that was removed.
    Nothing,
}

/// How a branch chooses between its two edges.
#[derive(Clone, Copy, Debug)]
pub enum Choice {
    /// The first edge where the test holds.
    If(Test),
    /// The first edge while the repeat's count is above 0, and the count goes down by one.
    Repeat,
}

/// A name of a block's list: the number by which nodes name it, and the kind of the object that it stands for.
#[derive(Clone, Copy)]
pub struct Named {
    pub name: u8,
    pub kind: Kind,
}

/// A node of a graph. A handler is named by its object's number, as it stands in the block's text.
#[derive(Drop)]
pub enum Node {
    Entry,
    Local(Action),
    Branch(Choice),
    /// A synchronisation with a handler.
    Sync(u8),
    /// A query, and the variable that takes the reply.
    Query(u8, Call),
    /// An asynchronous call.
    Call(Call),
    Exit,
}
