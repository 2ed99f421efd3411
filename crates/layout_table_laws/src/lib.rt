//! Laws of tables that stand for triples: their ids are those of terms, an entity holds the values of its triples, and where
//! they stand. So the steps of a compiled query may take the tables for the triples. The functions without a body are laws.
#![tactic(auto)]

ghost use Rattle.std.specs.Prelude.{◌≡◌, ℕ, ◌==◌, ◌&&◌, nat_eq, true, false, List, [], map, codes};
ghost use Rattle.std.specs.List.{filter, AllByRecursion, IsDistinct};
ghost use Rattle.bags.specs.Bag.{SameBag};
ghost use Rattle.rdf_meaning.specs.Terms.{RdfTerm, RdfTriple, same_term};
ghost use Rattle.table_meaning.specs.Tables.{NamedTable};
ghost use Rattle.sql_rows_meaning.specs.Tables.{relations_of};
ghost use Rattle.layout_meaning.specs.Columns.{ColumnsOf, candidates_of};
ghost use Rattle.layout_meaning.specs.Side.{find_in_row, found_values};
ghost use Rattle.layout_meaning.specs.Rows.{NumberedRow};
ghost use Rattle.layout_standing_meaning.specs.Dictionary.{Entry, AreEntries, id_of, has_term, is_id};
ghost use Rattle.layout_standing_meaning.specs.Schemas.{LayoutOf};
ghost use Rattle.layout_standing_meaning.specs.Contents.{SideContents, Contents, held_values};
ghost use Rattle.layout_standing_meaning.specs.Standing.{AreTables, Says, SideStands, is_spilled_in};
ghost use Rattle.layout_row_meaning.specs.Reading.{found_in, IsReadable};
ghost use Rattle.sql_gen_step_laws.specs.Carried.{Numbers};
ghost use Rattle.sql_gen_term_laws.specs.TermTable.{HasTerms};
ghost use Rattle.layout_table_laws.specs.TermIds.{IsIdOfTerm};

/// Each id of the table of terms is the id of a term that stands there, and 0 is none.
pub fn ids_are_terms()
    ensures terms { (es : List Entry) → AreEntries es → (n : ℕ) → is_id es n ≡ true → IsIdOfTerm es n }
    ensures zero { (es : List Entry) → AreEntries es → is_id es 0 ≡ false }
{}

/// The id of a term that is there isn't the id of any other term, nor the 0 of a term that isn't there.
pub fn ids_tell_terms()
    ensures { (es : List Entry) → AreEntries es → (c t : RdfTerm) → has_term es t ≡ true → (id_of es c == id_of es t) ≡ same_term c t }
{}

/// Over the tables of some contents, the table `TERM` has just one row for each of the terms, under its id, with its
/// class, value, text, and tag or datatype; and the ids tell the terms apart.
pub fn terms_are_held()
    ensures rows { (layout : LayoutOf) (c : Contents) (tables : List NamedTable) → AreTables layout c tables → AreEntries c.terms →
        HasTerms (id_of c.terms) (has_term c.terms) (relations_of tables (codes "TERM")) }
    ensures numbers { (c : Contents) → AreEntries c.terms → Numbers (id_of c.terms) (has_term c.terms) }
{}

/// The values of a term under a predicate are the ids of the objects of its triples, on the direct side, and of
/// the subjects, on the reverse side, each as often. A term that has no id has no triples.
pub fn values_are_held()
    ensures direct { (layout : LayoutOf) (c : Contents) (g : List RdfTriple) → Says layout c g → (e p : RdfTerm) →
        SameBag (held_values c.direct (id_of c.terms e) (id_of c.terms p)) (map (λ t. id_of c.terms t.o) (filter (λ t. same_term t.s e && same_term t.p p) g)) }
    ensures reverse { (layout : LayoutOf) (c : Contents) (g : List RdfTriple) → Says layout c g → (e p : RdfTerm) →
        SameBag (held_values c.reverse (id_of c.terms e) (id_of c.terms p)) (map (λ t. id_of c.terms t.s) (filter (λ t. same_term t.o e && same_term t.p p) g)) }
{}

/// An entity holds each value under a predicate once.
pub fn values_stand_once()
    ensures { (columns : ColumnsOf) (es : List Entry) (s : SideContents) → SideStands columns es s → (e p : ℕ) → IsDistinct nat_eq (held_values s e p) }
{}

/// What is no id holds nothing, is held under by nothing, and is spilled nowhere; so a term that isn't there is spilled nowhere.
pub fn strangers_stand_nowhere()
    ensures entities { (columns : ColumnsOf) (es : List Entry) (s : SideContents) → SideStands columns es s → (e p : ℕ) → is_id es e ≡ false → held_values s e p ≡ [] }
    ensures predicates { (columns : ColumnsOf) (es : List Entry) (s : SideContents) → SideStands columns es s → (e p : ℕ) → is_id es p ≡ false → held_values s e p ≡ [] }
    ensures spilled { (columns : ColumnsOf) (es : List Entry) (s : SideContents) → SideStands columns es s → (p : ℕ) → is_id es p ≡ false → is_spilled_in p s.rows ≡ false }
    ensures terms { (columns : ColumnsOf) (es : List Entry) (s : SideContents) → AreEntries es → SideStands columns es s → (t : RdfTerm) → has_term es t ≡ false → is_spilled_in (id_of es t) s.rows ≡ false }
{}

/// What the row of number 0 has under a predicate that isn't spilled are the values of its entity.
pub fn plain_values_stand_first()
    ensures { (columns : ColumnsOf) (es : List Entry) (s : SideContents) → SideStands columns es s → (p : ℕ) → is_spilled_in p s.rows ≡ false →
        AllByRecursion (λ (r : NumberedRow). (r.spill == 0) ≡ true → SameBag (found_values s.lists (find_in_row p r.pairs)) (held_values s r.entity p)) s.rows }
{}

/// What a row has under a term's id is found in the candidate columns of the term's text. A term without an id is found nowhere.
pub fn candidates_find()
    ensures { (columns : ColumnsOf) (es : List Entry) (s : SideContents) → AreEntries es → SideStands columns es s → (t : RdfTerm) →
        AllByRecursion (λ (r : NumberedRow). found_in (id_of es t) r.pairs (candidates_of columns t.text) ≡ find_in_row (id_of es t) r.pairs) s.rows }
{}

/// A side that stands can be read: its rows are as wide as there are columns, each pair gives a value at least, and no two
/// lists have one number.
pub fn sides_are_readable()
    ensures { (columns : ColumnsOf) (es : List Entry) (s : SideContents) → SideStands columns es s → IsReadable columns.count s }
{}
