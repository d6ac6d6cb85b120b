//! Of what a condition is to hold.

ghost use Rattle.std.specs.Prelude.{◌≡◌};
ghost use Rattle.qs_conditions.specs.Claims.{word as word_of};

use crate::condition::Condition;

/// Of what a condition is to hold.
#[derive(Clone, Copy, Debug, PartialEq, Eq)]
pub enum Quantifier {
    /// Of all ends.
    Always,
    /// Of at least one end.
    Some,
    /// Of where the program stands at the beginning, and after each block of each order.
    Throughout,
    /// Of where the program stands at the beginning, or after some block of some order.
    Ever,
    /// Of none of these.
    Never,
}

impl Quantifier {
    /// Its word, as on the command line and before an answer.
    pub fn word(self) -> &'static [u8]
        ensures word { result.now ≡ word_of self }
    {
        match self {
            Quantifier::Always => b"always",
            Quantifier::Some => b"some",
            Quantifier::Throughout => b"throughout",
            Quantifier::Ever => b"ever",
            Quantifier::Never => b"never",
        }
    }
}

/// A condition, and of what it is to hold.
#[derive(Drop)]
pub struct Claim {
    /// The line of the script on which the claim stands, from 1; 0 where it stands on the command line.
    pub line: usize,
    pub quantifier: Quantifier,
    pub condition: Condition,
}
