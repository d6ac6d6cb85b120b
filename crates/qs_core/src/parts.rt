//! The parts of the optimised machine: a client's mind with its lanes, a handler's mind with its queue of tickets, and
//! a lane.

mod core_client;
mod core_handler;
mod lane;
mod requests;

pub use core_client::CoreClient;
pub use core_handler::CoreHandler;
pub use lane::Lane;
