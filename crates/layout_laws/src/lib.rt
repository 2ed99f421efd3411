//! Laws of layouts and of statistics: a choice leaves exactly one layout to a bulk, and changes under options have
//! exactly one text of statistics.
#![tactic(auto)]

ghost use Rattle.std.specs.Prelude.{◌≡◌, ℕ, List};
ghost use Rattle.std.specs.List.{AllByRecursion};
ghost use Rattle.rdf_meaning.specs.Terms.{RdfTerm, RdfTriple};
ghost use Rattle.line_change_meaning.specs.declared.change.Change.{Change};
ghost use Rattle.line_change_meaning.specs.Present.{named};
ghost use Rattle.run_meaning.specs.declared.command.Options.{Options};
ghost use Rattle.colouring_file_meaning.specs.ColourLines.{ColourOf, AreFit};
ghost use Rattle.run_command_laws.specs.Ranges.{AreInRange};
ghost use Rattle.layout_meaning.specs.Side.{Item};
ghost use Rattle.layout_standing_meaning.specs.Dictionary.{IsTriple};
ghost use Rattle.layout_standing_meaning.specs.Schemas.{LayoutOf};
ghost use Rattle.pred_colour_meaning.specs.Interference.{Graph, IsInterference};
ghost use Rattle.pred_colour_meaning.specs.Colouring.{IsColouring};
ghost use Rattle.layout_columns_meaning.specs.Layouts.{ChoiceOf, IsLayoutFor};
ghost use Rattle.table_meaning.specs.Tables.{NamedTable};
ghost use Rattle.layout_stats_meaning.specs.Statistics.{StatsOf, AreStats};
ghost use Rattle.layout_placed_meaning.specs.Chosen.{IsLayoutOf, IsCounted};

/// Entities have an interference, and all their interferences have one colouring with k columns.
pub fn entities_have_one_colouring()
    ensures graph { (entities : List (List ℕ)) → (g : Graph) × IsInterference entities g }
    ensures one { (k : ℕ) (entities : List (List ℕ)) (g h : Graph) (xs ys : List (ℕ × ℕ)) → IsInterference entities g → IsInterference entities h → IsColouring g k xs → IsColouring h k ys → xs ≡ ys }
{}

/// A bulk has exactly one layout under a choice.
pub fn a_bulk_has_one_layout()
    ensures some { (choice : ChoiceOf) (terms : List RdfTerm) (items : List Item) → (layout : LayoutOf) × IsLayoutFor choice terms items layout }
    ensures one { (choice : ChoiceOf) (terms : List RdfTerm) (items : List Item) (a b : LayoutOf) → IsLayoutFor choice terms items a → IsLayoutFor choice terms items b → a ≡ b }
{}

/// Changes have exactly one layout under options.
pub fn changes_have_one_layout()
    ensures some { (options : Options) (colours : List ColourOf) (changes : List Change) → (layout : LayoutOf) × IsLayoutOf options colours changes layout }
    ensures one { (options : Options) (colours : List ColourOf) (changes : List Change) (a b : LayoutOf) → IsLayoutOf options colours changes a → IsLayoutOf options colours changes b → a ≡ b }
{}

/// Tables that stand for triples have one count at most.
pub fn tables_have_one_count()
    ensures { (layout : LayoutOf) (tables : List NamedTable) (g : List RdfTriple) (a b : StatsOf) → AreStats layout tables g a → AreStats layout tables g b → a ≡ b }
{}

/// Changes under options have one text of statistics at most, and have one where the options are in range, the
/// colours fit and the triples have their form.
pub fn changes_have_one_stats_text()
    ensures some { (options : Options) (colours : List ColourOf) (changes : List Change) → AreInRange options → AreFit options.columns options.reverse colours → AllByRecursion (λ change. IsTriple (named change)) changes → (text : List ℕ) × IsCounted options colours changes text }
    ensures one { (options : Options) (colours : List ColourOf) (changes : List Change) (a b : List ℕ) → IsCounted options colours changes a → IsCounted options colours changes b → a ≡ b }
{}
