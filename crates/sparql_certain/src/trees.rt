//! The variables that every solution of a tree binds.

ghost use Rattle.std.specs.Prelude.{List};
ghost use Rattle.std.specs.List.{AllByRecursion};
ghost use Rattle.rdf_meaning.specs.Terms.{RdfTriple};
ghost use Rattle.query_eval_meaning.specs.Eval.{eval};
ghost use Rattle.query_eval_meaning.specs.Variables.{Binds, certain_of};
ghost use Rattle.sparql_certain.specs.Certain.{Has};

use crate::leaf_vars::LeafVars;
use query_meaning::Tree;
use sparql_variables::VarSet;

// Those of a leaf, the union for Join, the left side's for LeftJoin, those that both sides have for Union, and the inner tree's for
// Filter.
#[tactic(auto, using(crate::specs::Certain::certain_laws))]
fn certain_set<L: LeafVars>(tree: &Tree<L>) -> VarSet
    ensures { Has result (certain_of L.certain tree.now) }
{
    match tree {
        Tree::Leaf(leaf) => leaf.leaf_certain(),
        Tree::Join(left, right) => {
            let one = certain_set(left.get());
            let other = certain_set(right.get());
            one.either(&other)
        }
        Tree::LeftJoin(left, _, _) => certain_set(left.get()),
        Tree::Union(left, right) => {
            let one = certain_set(left.get());
            let other = certain_set(right.get());
            one.both(&other)
        }
        Tree::Filter(_, inner) => certain_set(inner.get()),
    }
}

/// The certain variables of a tree, which every solution binds, over whichever triples.
pub fn certain<L: LeafVars>(tree: &Tree<L>) -> VarSet
    ensures value { Has result (certain_of L.certain tree.now) }
    ensures bound { (g : List RdfTriple) → AllByRecursion (Binds (certain_of L.certain tree.now)) (eval (λ l. L.solutions l g) tree.now) }
{
    certain_set(tree)
}
