//! Laws of the tables that a layout gives for changes.
#![tactic(auto)]

ghost use Rattle.std.specs.Prelude.{◌≡◌, ◌≤◌, List, ◌∷◌, map, fold, length, ◌++◌};
ghost use Rattle.bags.specs.Bag.{SameBag};
ghost use Rattle.rdf_meaning.specs.Terms.{RdfTerm, RdfTriple};
ghost use Rattle.table_meaning.specs.Tables.{NamedTable};
ghost use Rattle.line_change_meaning.specs.declared.change.Change.{Change};
ghost use Rattle.line_change_meaning.specs.declared.change.Change.TheVariants.{Add, Delete};
ghost use Rattle.line_change_meaning.specs.Present.{named, bulk};
ghost use Rattle.layout_standing_meaning.specs.Schemas.{LayoutOf};
ghost use Rattle.layout_meaning.specs.Facts.{FactsOf, IdOf, CountsOf};
ghost use Rattle.layout_standing_meaning.specs.Standing.{StandsFor};
ghost use Rattle.layout_standing_meaning.specs.Stored.{layout_of};
ghost use Rattle.layout_bulk_laws.specs.BulkStore.{bulk_store};
ghost use Rattle.run_meaning.specs.Limits.{terms_needed};
ghost use Rattle.layout_stats_meaning.specs.Statistics.{StatsOf, AreStats};
ghost use Rattle.layout_facts_meaning.specs.Facts.{AreFacts, AreIds};
ghost use Rattle.layout_counts_meaning.specs.Counts.{AreCounts};
ghost use Rattle.layout_placed_meaning.specs.Placed.{changed_in, placed_store, later_changes};

/// The bulk and the later changes are all changes. Triples that are added and nothing else are a bulk; where a
/// deletion follows them, it and the changes behind it are made one by one after the bulk.
pub fn bulk_first()
    ensures parts { (changes : List Change) → map Add (map named (bulk changes)) ++ later_changes changes ≡ changes }
    ensures alone { (layout : LayoutOf) (triples : List RdfTriple) → placed_store layout (map Add triples) ≡ bulk_store layout triples }
    ensures followed { (layout : LayoutOf) (triples : List RdfTriple) (t : RdfTriple) (calls : List Change) → placed_store layout (map Add triples ++ Delete t ∷ calls) ≡ fold changed_in (bulk_store layout triples) (Delete t ∷ calls) }
{}

/// The store of changes has the layout that it was made for, and the terms that the changes need; it used at most one
/// list id of a side for each change.
pub fn kept()
    ensures layout { (layout : LayoutOf) (changes : List Change) → layout_of (placed_store layout changes) ≡ layout }
    ensures terms { (layout : LayoutOf) (changes : List Change) → (placed_store layout changes).terms ≡ terms_needed changes }
    ensures direct_ids { (layout : LayoutOf) (changes : List Change) → (placed_store layout changes).direct.state.next ≤ length changes }
    ensures reverse_ids { (layout : LayoutOf) (changes : List Change) → (placed_store layout changes).reverse.state.next ≤ length changes }
{}

/// The order of the triples that tables stand for changes nothing: the tables stand for them in each order, and what is
/// told and counted of them stays the same.
pub fn order_changes_nothing()
    ensures standing { (layout : LayoutOf) (tables : List NamedTable) (g h : List RdfTriple) → SameBag g h → StandsFor layout tables g → StandsFor layout tables h }
    ensures facts { (layout : LayoutOf) (tables : List NamedTable) (g h : List RdfTriple) (preds : List RdfTerm) (facts : FactsOf) → SameBag g h → AreFacts layout tables g preds facts → AreFacts layout tables h preds facts }
    ensures ids { (layout : LayoutOf) (tables : List NamedTable) (g h : List RdfTriple) (terms : List RdfTerm) (ids : List IdOf) → SameBag g h → AreIds layout tables g terms ids → AreIds layout tables h terms ids }
    ensures counts { (layout : LayoutOf) (tables : List NamedTable) (g h : List RdfTriple) (terms : List RdfTerm) (counts : CountsOf) → SameBag g h → AreCounts layout tables g terms counts → AreCounts layout tables h terms counts }
    ensures stats { (layout : LayoutOf) (tables : List NamedTable) (g h : List RdfTriple) (stats : StatsOf) → SameBag g h → AreStats layout tables g stats → AreStats layout tables h stats }
{}
