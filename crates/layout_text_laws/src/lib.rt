//! Laws of tables that stand for triples, as text: they can be written. The functions without a body are laws.
#![tactic(auto)]

ghost use Rattle.std.specs.Prelude.{◌≤◌, List, IsTrue};
ghost use Rattle.std.specs.List.{list_all};
ghost use Rattle.rdf_meaning.specs.Terms.{RdfTriple};
ghost use Rattle.table_meaning.specs.Tables.{NamedTable};
ghost use Rattle.table_text_meaning.specs.TableText.{is_plain_table};
ghost use Rattle.layout_standing_meaning.specs.Schemas.{LayoutOf};
ghost use Rattle.layout_standing_meaning.specs.Standing.{StandsFor};

/// Tables that stand for triples under a layout of at most 32 columns a side can be written as text: each name of a table or
/// a column is one of the SQL dialect, and no column has truths.
pub fn standing_tables_are_plain()
    ensures { (layout : LayoutOf) (tables : List NamedTable) (g : List RdfTriple) → StandsFor layout tables g → layout.direct.count ≤ 32 → layout.reverse.count ≤ 32 →
        IsTrue (list_all is_plain_table tables) }
{}
