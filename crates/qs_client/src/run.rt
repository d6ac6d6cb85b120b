//! A client in its blocks: the walk through their graphs, the objects that it holds, its open chunks and its traces;
//! what it does by itself between two acts, and what each act does to it.

mod act_into;
mod acts;
mod after_send;
mod begin;
mod holdings;
mod position;
mod run;
mod stage;

pub use run::Run;
pub use stage::Stage;
