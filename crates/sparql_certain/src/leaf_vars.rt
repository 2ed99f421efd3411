//! Leaves that tell which variables their solutions bind.

use sparql_variables::VarSet;

/// A leaf of a tree.
pub trait LeafVars {
    ghost use Rattle.std.specs.Prelude.{List};
    ghost use Rattle.std.specs.List.{AllByRecursion};
    ghost use Rattle.rdf_meaning.specs.Terms.{RdfTriple};
    ghost use Rattle.query_eval_meaning.specs.Mapping.{Mapping};
    ghost use Rattle.query_eval_meaning.specs.Variables.{Variables, Binds};
    ghost use Rattle.sparql_certain.specs.Certain.{Has};

    /// The solutions of the leaf over a set of triples.
    ghost solutions: { Self → List RdfTriple → List Mapping };

    /// The variables that each of them binds for certain.
    ghost certain: { Self → Variables };

    fn leaf_certain(&self) -> VarSet
        ensures { Has result (certain self.now) };

    /// Every solution binds the certain variables.
    ghost bound: { (l : Self) (g : List RdfTriple) → AllByRecursion (Binds (certain l)) (solutions l g) };
}
