//! The anchors of a script.

ghost use Rattle.std.specs.Prelude.{◌≡◌};
ghost use Rattle.qs_check.specs.anchors.Anchors.{is_anchor};

use qs_objects::Kind;
use qs_script::tokens::Token;
use qs_script::tree::{Name, Number};

/// Whether a token is an anchor: a name, a number, `separate` or `leave`.
pub fn is_anchor(token: &Token) -> bool
    ensures value { result ≡ is_anchor token.now }
{
    matches!(
        token,
        Token::Name(_) | Token::Number(_) | Token::Separate | Token::Leave
    )
}

/// A token of a script that is a name, a number, `separate` or `leave`, by what stands there.
#[derive(Drop)]
pub enum Anchor {
    /// The name of an object or of a formal.
    Object(Name, Kind),
    /// A number that has a range: from the first one up to the second.
    Range(u64, u64, Number),
    /// A client's name.
    Client(Name),
    /// The beginning of a block.
    Separate,
    /// A name of a block's list.
    Listed(Name),
    /// The object of a request.
    Target(Name),
    /// The operation of a request: whether it asks, its object, its word, and the number of its arguments.
    Operation(bool, Name, Name, usize),
    /// A variable that is assigned or read.
    Variable(Name),
    /// A number among the values, with its sign.
    Value(i64),
    /// A `leave`, inside of a `repeat` or not.
    Leave(bool),
    /// A template's name.
    Template(Name),
    /// The template of a client, and how many objects are given for its formals.
    Starts(Name, usize),
    /// An object that is given: its template, its place among those that are given, and its name.
    Given(Name, usize, Name),
}
