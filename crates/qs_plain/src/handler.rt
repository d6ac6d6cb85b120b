//! A handler under the plain rules: its queue of queues, and what its step does.

mod effect;
mod handler;
mod handlers;

pub use effect::Effect;
pub use handler::{HandlerState, Served};
pub use handlers::{enter_all, fresh_handlers, log_all, log_command, log_query};
