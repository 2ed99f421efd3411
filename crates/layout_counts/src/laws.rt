//! The law that what is counted of a store is counted of its tables.

ghost use Rattle.std.specs.Prelude.{List};
ghost use Rattle.rdf_meaning.specs.Terms.{RdfTerm};
ghost use Rattle.layout_standing_meaning.specs.Stored.{StoreOf, IsStore, layout_of, tables_of, stored_triples};
ghost use Rattle.layout_counts_meaning.specs.Counts.{AreCounts, counts_over};

/// The counts of a store's triples are those of its tables.
pub fn stores_count()
    ensures { (s : StoreOf) (terms : List RdfTerm) → IsStore s → AreCounts (layout_of s) (tables_of s) (stored_triples s) terms (counts_over (stored_triples s) terms) }
{}
