//! Why a text was refused, or what is warned of in it, in words: the place, the source line with the token underlined,
//! the cause, and what helps.
#![tactic(auto)]

mod bytes;
mod spot;
mod told;
mod window;

pub use bytes::{put, put_all};
pub use spot::{Spot, line_end, spot_of};
pub use told::{Diagnosis, Span, put_diagnosis, put_warning};
