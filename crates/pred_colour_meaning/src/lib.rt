//! Which predicates interfere, and the greedy colouring of predicates. The function without a body is a law
//! of these definitions.
#![tactic(auto)]

ghost use Rattle.std.specs.Prelude.{◌≡◌, ℕ, List};
ghost use Rattle.std.specs.Ordering.{nat_cmp};
ghost use Rattle.std.specs.List.Sorted.{IsStrictlySortedBy};
ghost use Rattle.std.specs.Map.{keys_of};
ghost use Rattle.pred_colour_meaning.specs.Interference.{Graph};
ghost use Rattle.pred_colour_meaning.specs.Colouring.{IsColouring};

/// Each graph has exactly one colouring with k columns.
pub fn one_colouring()
    ensures some { (g : Graph) (k : ℕ) → IsStrictlySortedBy nat_cmp (keys_of g) → (colours : List (ℕ × ℕ)) × IsColouring g k colours }
    ensures one { (g : Graph) (k : ℕ) (xs ys : List (ℕ × ℕ)) → IsStrictlySortedBy nat_cmp (keys_of g) → IsColouring g k xs → IsColouring g k ys → xs ≡ ys }
{}
