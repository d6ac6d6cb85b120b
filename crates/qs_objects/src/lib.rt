// Objects, the requests that they serve, and the journals of what they did.
#![tactic(auto)]

ghost use Rattle.std.specs.Prelude.{◌≡◌};

use std::alloc::Global;

mod account;
mod args;
mod buffer;
mod grid;
mod held;
pub mod laws;
mod memory;
mod object;
mod operation;
mod rows;
mod traces;

pub use args::Args;
pub use held::{Entry, Event, Held, Journal, Next, Ticket};
pub use object::{GREATEST_BALANCE, Kind, MOST_LINES, MOST_VALUES, Object, ObjectFault};
pub use rows::Rows;
pub use traces::Traces;

/// What a request asks for: a command, which changes the object and has no reply, or a query, which
/// has one.
#[derive(Clone, Copy, Debug, PartialEq, Eq)]
pub enum Op {
    Deposit,
    Withdraw,
    Balance,
    Refused,
    Put,
    DropFirst,
    TakeFirst,
    First,
    Size,
    SetCell,
    AddCell,
    Fill,
    GetCell,
    RowSum,
}

/// A request to an object, which it names by its number.
pub struct Request {
    pub object: u8,
    pub op: Op,
    pub args: Args,
}

impl Drop for Request {
    fn drop(self) {
        let Request {
            object: _,
            op: _,
            args: _,
        } = self;
    }
}

impl Request {
    // A request that nobody makes.
    pub(crate) fn blank(alloc: Global) -> Request {
        Request {
            object: 0,
            op: Op::Balance,
            args: Args::new(alloc),
        }
    }

    /// The same request once more; takes no memory.
    pub fn copied(&self) -> Request
        ensures same { result ≡ self.now }
    {
        Request {
            object: self.object,
            op: self.op,
            args: self.args.copied(),
        }
    }
}
