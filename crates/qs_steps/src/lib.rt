//! The lines of steps: what each step of a run has done; and what lies where at its end; both as text or as JSON.
#![tactic(auto)]

mod core_lines;
mod core_orders;
mod core_queues;
mod core_telling;
mod forms;
pub mod laws;
mod lines;
mod marks;
mod orders;
mod plain_lines;
mod plain_queues;
mod queue_words;
mod rules_orders;
mod rules_telling;
mod telling;
mod wanted;

pub use core_orders::play_order_told;
pub use core_telling::play_told;
pub use rules_orders::rules_order_told;
pub use rules_telling::rules_told;
pub use wanted::{Form, Told, Wanted};
