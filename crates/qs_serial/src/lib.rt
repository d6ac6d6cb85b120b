//! The serial run as code: a block alone, each request done at once; and the orders of blocks that lists of clients
//! name.
#![tactic(auto)]

mod alone;
mod fault;
mod orders;

pub use alone::run_body;
pub use fault::OrderFault;
pub use orders::names_order;
