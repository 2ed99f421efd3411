ghost use Rattle.std.specs.Prelude.{◌≡◌, ◌<◌, ℕ};

use std::marker::Model;

/// A variable's number in its query, below 64.
#[derive(Clone, Copy, PartialEq, Eq, Debug)]
pub struct VarId {
    number: u32,
}

impl Model for VarId {
    ghost Value = { ℕ };

    ghost view = { λ v. v.number };

    ghost invariant = { λ v. v.number < 64 };

    ghost inverse = { λ n. record { number = n } };
}

impl VarId {
    pub fn new(number: u32) -> VarId
        requires { number < 64 }
        ensures { result ≡ number }
    {
        VarId { number }
    }

    pub fn number(self) -> u32
        ensures value { result ≡ self }
        ensures below { result < 64 }
    {
        self.number
    }
}
