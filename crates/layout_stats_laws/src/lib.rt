//! Laws of table statistics: what is counted of a store is counted of its tables.
#![tactic(auto)]

ghost use Rattle.std.specs.Prelude.{◌≡◌, ℕ, length};
ghost use Rattle.layout_meaning.specs.Side.{Entities};
ghost use Rattle.layout_meaning.specs.Rows.{SideOf, IsCountOf, is_spilled, row_total, numbered_rows};
ghost use Rattle.layout_standing_meaning.specs.Contents.{side_contents};
ghost use Rattle.layout_standing_meaning.specs.Standing.{is_spilled_in};
ghost use Rattle.layout_standing_meaning.specs.Stored.{StoreOf, IsStore, layout_of, tables_of, stored_triples};
ghost use Rattle.layout_stats_meaning.specs.Statistics.{SideStatsOf, AreSideStats, StatsOf, AreStats};

/// A predicate stands behind the first row of an entity exactly where it stands in a row numbered above 0.
pub fn spilled()
    ensures { (p : ℕ) (ents : Entities) → is_spilled p ents ≡ is_spilled_in p (numbered_rows ents) }
{}

/// What is counted of a side and of a store is counted of its tables.
pub fn counted()
    ensures side { (s : SideOf) (stats : SideStatsOf) → stats.columns ≡ s.columns.count → stats.rows ≡ row_total s.state.entities → stats.lists ≡ length s.state.lists → IsCountOf (λ p. is_spilled p s.state.entities) stats.spilled → AreSideStats s.columns (side_contents s.state) stats }
    ensures store { (s : StoreOf) (stats : StatsOf) → IsStore s → stats.triples ≡ length (stored_triples s) → stats.terms ≡ length s.terms → AreSideStats s.direct.columns (side_contents s.direct.state) stats.direct → AreSideStats s.reverse.columns (side_contents s.reverse.state) stats.reverse → AreStats (layout_of s) (tables_of s) (stored_triples s) stats }
{}
