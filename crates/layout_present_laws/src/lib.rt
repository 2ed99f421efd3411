//! Laws of the tables that a layout gives for changes: they stand for the triples that are present after them, and a change uses
//! at most one list id of a side. The functions without a body are laws.
#![tactic(auto)]

ghost use Rattle.std.specs.Prelude.{ℕ, ◌+◌, ◌≤◌, List, fold, length};
ghost use Rattle.std.specs.List.{AllByRecursion};
ghost use Rattle.line_change_meaning.specs.declared.change.Change.{Change};
ghost use Rattle.line_change_meaning.specs.Present.{named, present};
ghost use Rattle.run_meaning.specs.declared.command.Options.{Options};
ghost use Rattle.colouring_file_meaning.specs.ColourLines.{ColourOf, AreFit};
ghost use Rattle.run_command_laws.specs.Ranges.{AreInRange};
ghost use Rattle.layout_standing_meaning.specs.Dictionary.{IsTriple};
ghost use Rattle.layout_standing_meaning.specs.Schemas.{LayoutOf};
ghost use Rattle.layout_standing_meaning.specs.Standing.{StandsFor};
ghost use Rattle.layout_standing_meaning.specs.Stored.{StoreOf, IsStore};
ghost use Rattle.layout_store_laws.specs.ListIds.{UseOneAtMost};
ghost use Rattle.layout_bulk_laws.specs.BulkStore.{HaveCandidates};
ghost use Rattle.layout_placed_meaning.specs.Placed.{changed_in, placed_store, placed_tables};
ghost use Rattle.layout_placed_meaning.specs.Chosen.{IsLayoutOf};

/// The tables that a layout gives for changes stand for the triples present after them, where each predicate has a column to go
/// to and the triples have their form; so do those under the layout that options ask for, where the options are in range and the
/// colours fit.
pub fn placed_tables_stand()
    ensures store { (layout : LayoutOf) (changes : List Change) → HaveCandidates layout.direct → HaveCandidates layout.reverse → AllByRecursion (λ change. IsTriple (named change)) changes → IsStore (placed_store layout changes) }
    ensures any { (layout : LayoutOf) (changes : List Change) → HaveCandidates layout.direct → HaveCandidates layout.reverse → AllByRecursion (λ change. IsTriple (named change)) changes → StandsFor layout (placed_tables layout changes) (present changes) }
    ensures chosen { (options : Options) (colours : List ColourOf) (changes : List Change) (layout : LayoutOf) → AreInRange options → AreFit options.columns options.reverse colours → AllByRecursion (λ change. IsTriple (named change)) changes → IsLayoutOf options colours changes layout → StandsFor layout (placed_tables layout changes) (present changes) }
{}

/// A change uses at most one list id of each side, and a list of changes at most as many as there are changes: from any store on.
pub fn changes_use_one_list_id()
    ensures one { (s : StoreOf) (change : Change) → UseOneAtMost s (changed_in s change) }
    ensures direct { (s : StoreOf) (changes : List Change) → (fold changed_in s changes).direct.state.next ≤ s.direct.state.next + length changes }
    ensures reverse { (s : StoreOf) (changes : List Change) → (fold changed_in s changes).reverse.state.next ≤ s.reverse.state.next + length changes }
{}
