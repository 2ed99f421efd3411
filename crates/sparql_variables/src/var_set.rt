//! Sets of variables.

ghost use Rattle.std.specs.Prelude.{◌≡◌, ◌||◌, ◌&&◌, ◌==◌, false, ℕ};
ghost use Rattle.sparql_variables.specs.Bits.{members};

use query_meaning::VarId;
use std::marker::Model;

/// A set of variables: contracts see the number of which `members` tells the variables.
#[derive(Clone, Copy, Debug, PartialEq, Eq)]
pub struct VarSet {
    bits: u64,
}

impl Model for VarSet {
    ghost use Rattle.std.specs.Prelude.{ℕ};

    ghost Value = { ℕ };

    ghost view = { λ s. s.bits };

    ghost invariant = { λ s. Unit {0} };

    ghost inverse = { λ n. record { bits = n } };
}

impl VarSet {
    /// The set without a variable.
    #[tactic(auto, using(crate::proofs::Bits::bit_laws))]
    pub fn empty() -> VarSet
        ensures { (v : ℕ) → members result v ≡ false }
    {
        VarSet { bits: 0 }
    }

    /// The set with this variable besides.
    #[tactic(auto, using(crate::proofs::Bits::bit_laws))]
    pub fn with(&self, v: VarId) -> VarSet
        ensures { (w : ℕ) → members result w ≡ (members self.now w || w == v) }
    {
        VarSet {
            bits: self.bits | 1 << v.number(),
        }
    }

    /// Whether the variable is in it.
    pub fn has(&self, v: VarId) -> bool
        ensures { result ≡ members self.now v }
    {
        self.bits & (1 << v.number()) != 0
    }

    /// The variables that are in one of the sets.
    #[tactic(auto, using(crate::proofs::Bits::both_laws))]
    pub fn either(&self, other: &VarSet) -> VarSet
        ensures { (v : ℕ) → members result v ≡ (members self.now v || members other.now v) }
    {
        VarSet {
            bits: self.bits | other.bits,
        }
    }

    /// The variables that are in both sets.
    #[tactic(auto, using(crate::proofs::Bits::both_laws))]
    pub fn both(&self, other: &VarSet) -> VarSet
        ensures { (v : ℕ) → members result v ≡ (members self.now v && members other.now v) }
    {
        VarSet {
            bits: self.bits & other.bits,
        }
    }
}
