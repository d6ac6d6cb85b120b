//! What the definitions say of both machines and of blocks alone, for callers' proofs and for readers.

pub use qs_core_laws::laws::{core_runs_are_isolated, core_syncs_are_counted};
pub use qs_core_laws::orders::laws::core_orders_are_played;
pub use qs_meaning::laws::alike;
pub use qs_plain_laws::laws::{
    isolation_examples, plain_runs_are_isolated, plain_syncs_are_counted,
};
pub use qs_plain_laws::orders::laws::orders_are_played;
