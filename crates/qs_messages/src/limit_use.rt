//! What a script uses of the limits of the language, and how much of each is left.

mod extents;
mod greatest;
mod templates;
mod text;

pub use templates::{TemplateUse, template_use};
pub use text::limits_text;
