//! Laws of plans.

ghost use Rattle.std.specs.Prelude.{◌≡◌, List, true};
ghost use Rattle.std.specs.List.{list_all, AllByRecursion};
ghost use Rattle.rdf_meaning.specs.Terms.{RdfTriple};
ghost use Rattle.query_meaning.specs.declared.tree.Tree.{Tree};
ghost use Rattle.query_eval_meaning.specs.Leaf.{terms_of};
ghost use Rattle.query_eval_meaning.specs.Variables.{Binds, IsOver, variables_of, certain_of};
ghost use Rattle.query_plan_meaning.specs.declared.star.Star.{Star};
ghost use Rattle.query_plan_meaning.specs.Stars.{star_in_width, stars_variables, stars_certain, plan_solutions};
ghost use Rattle.query_plan_meaning.specs.Plans.{every_leaf};

/// Every solution of a plan binds its variables alone, to terms that stand in the triples.
// For the rows of each step of the compiler.
pub fn plans_stay_over()
    ensures { (tree : Tree (List Star)) (g : List RdfTriple) → every_leaf (list_all star_in_width) tree ≡ true →
        AllByRecursion (IsOver (variables_of stars_variables tree) (terms_of g)) (plan_solutions tree g) }
{}

/// Every solution of a plan binds its certain variables.
// For joins by plain equality.
pub fn plans_bind_certain()
    ensures { (tree : Tree (List Star)) (g : List RdfTriple) → AllByRecursion (Binds (certain_of stars_certain tree)) (plan_solutions tree g) }
{}
