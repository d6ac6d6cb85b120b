//! What is so of all running threads, for callers' proofs and for readers.

pub use qs_run_laws::laws::settled;
