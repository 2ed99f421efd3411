//! Sides one behind the other, and sides of a bulk. The function without a body is a law of these
//! definitions.
#![tactic(auto)]

ghost use Rattle.std.specs.Prelude.{◌++◌, ℕ, List};
ghost use Rattle.bags.specs.Bag.{SameBag};
ghost use Rattle.layout_meaning.specs.Side.{SideState, items};
ghost use Rattle.layout_meaning.specs.Sound.{IsSound, KeepsTo};
ghost use Rattle.layout_bulk_meaning.specs.Appended.{appended};

/// A side behind another is a side, which holds what both hold, in the columns where both have it.
pub fn sides_append()
    ensures sound { (k : ℕ) (s t : SideState) → IsSound k s → IsSound k t → IsSound k (appended s t) }
    ensures items { (k : ℕ) (s t : SideState) → IsSound k s → IsSound k t → SameBag (items (appended s t)) (items s ++ items t) }
    ensures keeps { (candidates : ℕ → List ℕ) (s t : SideState) → KeepsTo candidates s → KeepsTo candidates t → KeepsTo candidates (appended s t) }
{}
