//! What is said on standard error: of a fault, and beside a result.
#![tactic(auto)]

mod causes;
mod details;
mod fault;
mod limit_use;
mod limits;
mod line_causes;
mod warned;
mod warnings;

pub use details::fault_details;
pub use fault::tell_fault;
pub use limit_use::{TemplateUse, template_use};
pub use limits::tell_limits;
pub use warnings::tell_warnings;
