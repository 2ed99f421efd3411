//! The law that what is told of a store is told of its tables.

ghost use Rattle.std.specs.Prelude.{List};
ghost use Rattle.rdf_meaning.specs.Terms.{RdfTerm};
ghost use Rattle.layout_standing_meaning.specs.Stored.{StoreOf, IsStore, layout_of, tables_of, stored_triples};
ghost use Rattle.layout_facts_meaning.specs.Facts.{AreFacts, AreIds, HaveFacts, store_facts, store_ids};

/// The facts and the ids of a store are those of its tables, and the tables have both together.
pub fn stores_tell()
    ensures facts { (s : StoreOf) (preds : List RdfTerm) → IsStore s → AreFacts (layout_of s) (tables_of s) (stored_triples s) preds (store_facts s preds) }
    ensures ids { (s : StoreOf) (terms : List RdfTerm) → IsStore s → AreIds (layout_of s) (tables_of s) (stored_triples s) terms (store_ids s terms) }
    ensures together { (s : StoreOf) (terms : List RdfTerm) → IsStore s → HaveFacts (layout_of s) (tables_of s) (stored_triples s) (store_ids s terms) (store_facts s terms) }
{}
