//! Tokens of scripts: names, numbers, reserved words and signs, and what is cut off at the front of a text.

mod lex;
mod limits;
mod listing;
mod name;
mod number;
mod token;

pub use lex::{Piece, TokenFault, front};
pub use listing::{TokensFault, list_tokens};
pub use name::Name;
pub use number::Number;
pub use token::Token;
