//! Tables that stand for triples: the five tables of the hashed layout, what they say, and the triples of a
//! store. Functions without a body are laws of these definitions.
#![tactic(auto)]

ghost use Rattle.layout_standing_meaning.specs.Standing.{StandsFor};
ghost use Rattle.layout_standing_meaning.specs.Stored.{StoreOf, IsStore, layout_of, tables_of, stored_triples};

/// The tables of a store stand for the triples that it holds.
pub fn stores_stand()
    ensures { (s : StoreOf) → IsStore s → StandsFor (layout_of s) (tables_of s) (stored_triples s) }
{}
