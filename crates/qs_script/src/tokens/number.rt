//! Numbers.

ghost use Rattle.std.specs.Prelude.{◌≡◌, ◌<◌, pos};

use std::marker::Model;

/// A number of at most eighteen digits, so from 0 to below 10^18. Contracts see it as a natural number.
#[derive(Clone, Copy)]
pub struct Number {
    number: i64,
}

impl Model for Number {
    ghost use Rattle.std.specs.Prelude.{ℕ, ◌<◌, ◌≡◌, pos, unsigned_abs};

    ghost Value = { ℕ };

    ghost view = { λ n. unsigned_abs n.number };

    ghost invariant = { λ n. (n.number ≡ pos (unsigned_abs n.number)) × (unsigned_abs n.number < 1000000000000000000) };

    ghost inverse = { λ n. record { number = pos n } };
}

impl Number {
    /// The number n.
    pub fn new(n: u64) -> Number
        requires small { n < 1000000000000000000 }
        ensures same { result ≡ n }
    {
        Number { number: n as i64 }
    }

    /// The number, as a count.
    pub fn count(self) -> u64
        ensures same { result ≡ self }
        ensures small { self < 1000000000000000000 }
    {
        self.value() as u64
    }

    /// The number, as a value of the language.
    pub fn value(self) -> i64
        ensures same { result ≡ pos self }
        ensures small { self < 1000000000000000000 }
    {
        self.number
    }
}
