//! Tokens.

use crate::tokens::name::Name;
use crate::tokens::number::Number;

/// A piece of a script: a name, a number, a reserved word or a sign.
#[derive(Drop)]
pub enum Token {
    Name(Name),
    Number(Number),
    Object,
    Client,
    Separate,
    If,
    Else,
    Repeat,
    Leave,
    Account,
    Buffer,
    Grid,
    Template,
    OpenBrace,
    CloseBrace,
    OpenParen,
    CloseParen,
    Comma,
    Dot,
    Semicolon,
    Assign,
    Plus,
    Minus,
    Times,
    Equal,
    Unequal,
    Less,
    AtMost,
    Greater,
    AtLeast,
}
