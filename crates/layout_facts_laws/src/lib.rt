//! Laws of what is told of tables: tables that stand for triples have one contents, whatever order their rows have, and so one
//! set of triples, and one answer to each question for ids, facts and counts. The functions without a body are laws.
#![tactic(auto)]

ghost use Rattle.std.specs.Prelude.{◌≡◌, List};
ghost use Rattle.std.specs.List.{list_any, AllByRecursion};
ghost use Rattle.bags.specs.Bag.{SameBag};
ghost use Rattle.rdf_meaning.specs.Terms.{RdfTerm, RdfTriple, same_term};
ghost use Rattle.table_meaning.specs.Tables.{NamedTable};
ghost use Rattle.layout_meaning.specs.Facts.{FactsOf, IdOf, CountsOf};
ghost use Rattle.layout_standing_meaning.specs.Schemas.{LayoutOf};
ghost use Rattle.layout_standing_meaning.specs.Contents.{Contents};
ghost use Rattle.layout_standing_meaning.specs.Standing.{AreTables, Says, StandsFor, is_spilled_in};
ghost use Rattle.layout_facts_meaning.specs.Facts.{AreFacts, AreIds, HaveFacts, facts_told, ids_told, terms_named};
ghost use Rattle.layout_counts_meaning.specs.Counts.{AreCounts};
ghost use Rattle.layout_facts_laws.specs.Alike.{SayAlike};

/// All contents that tables have say the same.
pub fn tables_have_one_contents()
    ensures { (layout : LayoutOf) (tables : List NamedTable) (c d : Contents) (g h : List RdfTriple) → AreTables layout c tables → AreTables layout d tables → Says layout c g → Says layout d h → SayAlike c d }
{}

/// Tables stand for one set of triples at most, and the order in which its triples are listed doesn't count.
pub fn tables_stand_for_one_set()
    ensures one { (layout : LayoutOf) (tables : List NamedTable) (g h : List RdfTriple) → StandsFor layout tables g → StandsFor layout tables h → SameBag g h }
    ensures order { (layout : LayoutOf) (tables : List NamedTable) (g h : List RdfTriple) → StandsFor layout tables g → SameBag g h → StandsFor layout tables h }
{}

/// Tables have one answer at most to each question for facts, for ids and for counts.
pub fn tables_tell_one()
    ensures facts { (layout : LayoutOf) (tables : List NamedTable) (g h : List RdfTriple) (preds : List RdfTerm) (a b : FactsOf) → AreFacts layout tables g preds a → AreFacts layout tables h preds b → a ≡ b }
    ensures ids { (layout : LayoutOf) (tables : List NamedTable) (g h : List RdfTriple) (terms : List RdfTerm) (a b : List IdOf) → AreIds layout tables g terms a → AreIds layout tables h terms b → a ≡ b }
    ensures counts { (layout : LayoutOf) (tables : List NamedTable) (g h : List RdfTriple) (terms : List RdfTerm) (a b : CountsOf) → AreCounts layout tables g terms a → AreCounts layout tables h terms b → a ≡ b }
{}

/// Tables that stand for triples have ids and facts of any terms. Ids and facts of the same terms that were told apart are had
/// together, and each contents that the tables have tells them.
pub fn tables_have_facts()
    ensures some { (layout : LayoutOf) (tables : List NamedTable) (g : List RdfTriple) (terms : List RdfTerm) → StandsFor layout tables g → (ids : List IdOf) × (facts : FactsOf) × (terms_named ids ≡ terms) × HaveFacts layout tables g ids facts }
    ensures together { (layout : LayoutOf) (tables : List NamedTable) (g h : List RdfTriple) (terms : List RdfTerm) (ids : List IdOf) (facts : FactsOf) → AreIds layout tables g terms ids → AreFacts layout tables h terms facts → HaveFacts layout tables g ids facts }
    ensures ids { (layout : LayoutOf) (tables : List NamedTable) (g h : List RdfTriple) (ids : List IdOf) (facts : FactsOf) (c : Contents) → HaveFacts layout tables g ids facts → AreTables layout c tables → Says layout c h → ids ≡ ids_told c.terms (terms_named ids) }
    ensures facts { (layout : LayoutOf) (tables : List NamedTable) (g h : List RdfTriple) (ids : List IdOf) (facts : FactsOf) (c : Contents) → HaveFacts layout tables g ids facts → AreTables layout c tables → Says layout c h → facts ≡ facts_told layout c (terms_named ids) }
{}

/// A term that ids name is listed as spilled exactly where its id is spilled in the rows; so one that isn't listed stands in no
/// row numbered above 0, a term without an id too.
pub fn facts_list_the_spilled()
    ensures direct { (layout : LayoutOf) (tables : List NamedTable) (g : List RdfTriple) (ids : List IdOf) (facts : FactsOf) (h : HaveFacts layout tables g ids facts) → AllByRecursion (λ (i : IdOf). list_any (same_term i.term) facts.spilled.direct ≡ is_spilled_in i.id h.contents.direct.rows) ids }
    ensures reverse { (layout : LayoutOf) (tables : List NamedTable) (g : List RdfTriple) (ids : List IdOf) (facts : FactsOf) (h : HaveFacts layout tables g ids facts) → AllByRecursion (λ (i : IdOf). list_any (same_term i.term) facts.spilled.reverse ≡ is_spilled_in i.id h.contents.reverse.rows) ids }
{}
