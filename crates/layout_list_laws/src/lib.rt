//! The lists of both sides stand by falling id, and changes keep them so: a law.
#![tactic(auto)]

ghost use Rattle.std.specs.Prelude.{◌≡◌, ℕ, List, []};
ghost use Rattle.layout_meaning.specs.Side.{Item};
ghost use Rattle.layout_standing_meaning.specs.Sides.{SidesOf, both_placed, both_taken, AreAsBefore};
ghost use Rattle.layout_list_laws.specs.InOrder.{AreInOrder};

/// Sides without lists are in order, and placing, taking out and a refusal keep them so.
pub fn kept()
    ensures none { (s : SidesOf) → s.direct.state.lists ≡ [] → s.reverse.state.lists ≡ [] → AreInOrder s }
    ensures placed { (s : SidesOf) (iri : List ℕ) (x : Item) → AreInOrder s → AreInOrder (both_placed s iri x) }
    ensures taken { (s : SidesOf) (x : Item) → AreInOrder s → AreInOrder (both_taken s x) }
    ensures before { (s new : SidesOf) → AreAsBefore s new → AreInOrder s → AreInOrder new }
{}
