//! What a run of the optimised machine has shown, read off its clients and handlers.

mod core_showing;

pub use core_showing::{are_finished, client_at, handler_at, shown};
