//! Laws of changes: which triples are present after them, and how many a data file has.
#![tactic(auto)]

ghost use Rattle.std.specs.Prelude.{◌≡◌, ℕ, ◌+◌, ◌≤◌, List, [], ◌∷◌, ◌++◌, map, fold, length, Ok, if◌then◌else◌};
ghost use Rattle.std.specs.List.{list_any, IsDistinct};
ghost use Rattle.bags.specs.Bag.{SameBag};
ghost use Rattle.rdf_meaning.specs.Terms.{RdfTriple, same_triple};
ghost use Rattle.line_change_meaning.specs.declared.change.Change.{Change};
ghost use Rattle.line_change_meaning.specs.declared.change.Change.TheVariants.{Add, Delete};
ghost use Rattle.line_change_meaning.specs.Present.{is_present, with_triple, present};
ghost use Rattle.line_meaning.specs.Changes.{changes_of};

/// The triples that are present are those that the last change that names them adds, each once.
pub fn members()
    ensures all { (changes : List Change) (t : RdfTriple) → list_any (same_triple t) (present changes) ≡ is_present changes t }
    ensures once { (changes : List Change) → IsDistinct same_triple (present changes) }
{}

/// An addition makes a triple present, and changes nothing where it is; a deletion takes it away, where it is.
pub fn one_more()
    ensures added { (before : List Change) (t : RdfTriple) → SameBag (present (before ++ Add t ∷ [])) (if is_present before t then present before else t ∷ present before) }
    ensures deleted { (before : List Change) (t : RdfTriple) → SameBag (if is_present before t then t ∷ present (before ++ Delete t ∷ []) else present (before ++ Delete t ∷ [])) (present before) }
{}

/// After additions alone the triples are present that were added, each once, in order of first addition.
pub fn added()
    ensures { (triples : List RdfTriple) → present (map Add triples) ≡ fold with_triple [] triples }
{}

/// A data file has at most one change more than bytes.
pub fn few_changes()
    ensures { (n : ℕ) (bytes : List ℕ) (changes : List Change) → changes_of n bytes ≡ Ok changes → length changes ≤ length bytes + 1 }
{}
