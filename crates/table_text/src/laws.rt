//! Laws of tables as text, that other crates may call upon.

ghost use Rattle.std.specs.Prelude.{ℕ, List, IsTrue};
ghost use Rattle.std.specs.List.{list_all};
ghost use Rattle.table_meaning.specs.Tables.{NamedTable};
ghost use Rattle.table_text_meaning.specs.TableText.{TablesRead, is_plain_table};
ghost use Rattle.table_text.specs.Laws.{OneReading, NeverBoth, OneBadLine, ReadOrBad};

/// A text spells one list of tables at most and has one first bad line at most; it has one of the
/// two, and never both.
#[tactic(auto, using(crate::proofs::OneOutcome::one_bad_line))]
pub fn texts_have_one_outcome()
    ensures reading { OneReading }
    ensures apart { NeverBoth }
    ensures bad { OneBadLine }
    ensures whole { ReadOrBad }
{}

/// Tables that were read from a text can be written as text again.
pub fn tables_read_are_plain()
    ensures { (bytes : List ℕ) (tables : List NamedTable) (at : ℕ) → TablesRead bytes tables at → IsTrue (list_all is_plain_table tables) }
{}
