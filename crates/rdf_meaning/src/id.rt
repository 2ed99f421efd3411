//! Numbers of terms.

ghost use Rattle.std.specs.Prelude.{◌≡◌, ◌<◌, ◌^◌, ℕ};

use std::marker::Model;

/// A term's number in its dictionary, at least 1.
#[derive(Clone, Copy, Debug, PartialEq, Eq, PartialOrd, Ord, Hash)]
pub struct TermId {
    number: u32,
}

impl Model for TermId {
    ghost Value = { ℕ };

    ghost view = { λ id. id.number };

    ghost invariant = { λ id. 0 < id.number };

    ghost inverse = { λ n. record { number = n } };
}

impl TermId {
    /// The id with this number.
    pub fn new(number: u32) -> TermId
        requires { 0 < number }
        ensures { result ≡ number }
    {
        TermId { number }
    }

    pub fn number(self) -> u32
        ensures value { result ≡ self }
        ensures positive { 0 < result }
        ensures in_range { result < 2 ^ 32 }
    {
        self.number
    }
}
