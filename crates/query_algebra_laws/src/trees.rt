//! Laws of whole trees.

ghost use Rattle.std.specs.Prelude.{List};
ghost use Rattle.std.specs.List.{AllByRecursion};
ghost use Rattle.bags.specs.Bag.{SameBag};
ghost use Rattle.rdf_meaning.specs.Terms.{RdfTerm, RdfTriple};
ghost use Rattle.query_meaning.specs.declared.pattern.Pattern.{Pattern};
ghost use Rattle.query_meaning.specs.declared.tree.Tree.{Tree};
ghost use Rattle.query_eval_meaning.specs.Mapping.{Mapping};
ghost use Rattle.query_eval_meaning.specs.Leaf.{terms_of};
ghost use Rattle.query_eval_meaning.specs.Eval.{eval, solutions};
ghost use Rattle.query_eval_meaning.specs.Variables.{Variables, pattern_variables, variables_of, certain_of, Binds, IsOver};

/// A tree's solutions depend on those of its leaves as bags.
// For plans, whose leaves hold stars in place of patterns.
pub fn trees_respect_leaves<L>()
    ensures { (leaves others : L → List Mapping) → ((l : L) → SameBag (leaves l) (others l)) → (t : Tree L) → SameBag (eval leaves t) (eval others t) }
{}

/// Every solution binds the certain variables, where those of each leaf do.
// For joins by plain equality, over leaves of patterns and of stars.
pub fn certain_of_leaves_are_bound<L>()
    ensures { (leaves : L → List Mapping) (certain : L → Variables) → ((l : L) → AllByRecursion (Binds (certain l)) (leaves l)) →
        (t : Tree L) → AllByRecursion (Binds (certain_of certain t)) (eval leaves t) }
{}

/// Every solution of a query's tree binds its certain variables.
// For the certain variables of a tree of patterns.
pub fn certain_are_bound()
    ensures { (tree : Tree (List Pattern)) (g : List RdfTriple) → AllByRecursion (Binds (certain_of pattern_variables tree)) (solutions tree g) }
{}

/// Every solution binds the tree's variables alone, to the terms that there are, where those of each leaf do.
// For the rows of each step, which hold ids of terms that the tables have.
pub fn solutions_of_leaves_stay_over<L>()
    ensures { (leaves : L → List Mapping) (vars : L → Variables) (terms : List RdfTerm) → ((l : L) → AllByRecursion (IsOver (vars l) terms) (leaves l)) →
        (t : Tree L) → AllByRecursion (IsOver (variables_of vars t) terms) (eval leaves t) }
{}

/// Every solution of a query's tree binds its variables alone, to terms that stand in the triples.
// For the same, of a tree of patterns.
pub fn solutions_stay_over()
    ensures { (tree : Tree (List Pattern)) (g : List RdfTriple) → AllByRecursion (IsOver (variables_of pattern_variables tree) (terms_of g)) (solutions tree g) }
{}
