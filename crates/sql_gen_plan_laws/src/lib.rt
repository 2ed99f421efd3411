//! Laws of the plans that follow the flow of a query's leaves: they may be compiled, and come from their query. The functions
//! without a body are laws.
#![tactic(auto)]

ghost use Rattle.std.specs.Prelude.{◌≡◌, List, []};
ghost use Rattle.layout_meaning.specs.Facts.{CountsOf, FactsOf, IdOf};
ghost use Rattle.layout_facts_meaning.specs.Facts.{terms_named};
ghost use Rattle.query_meaning.specs.declared.query.Query.{Query};
ghost use Rattle.query_plan_meaning.specs.Plans.{ComesFrom};
ghost use Rattle.query_flow_meaning.specs.Planned.{planned};
ghost use Rattle.sparql_meaning.specs.Constants.{kept_once, tree_constants};
ghost use Rattle.sparql_query_meaning.specs.Fragment.{OfFragment};
ghost use Rattle.sql_gen_meaning.specs.Compilable.{AreColumns, Compilable};

/// The plan that follows the flow of each leaf comes from its query.
// For the rows of the SQL, which are the query's solutions.
pub fn fragment_plans_come_from_queries()
    ensures { (counts : CountsOf) (q : Query) → OfFragment q → ComesFrom q (planned counts q) }
{}

/// It may be compiled with ids that name each constant of the query's patterns, over columns that may be compiled.
// For the compiler, which asks it.
pub fn planned_plans_are_compilable()
    ensures { (counts : CountsOf) (facts : FactsOf) (ids : List IdOf) (q : Query) → OfFragment q → terms_named ids ≡ kept_once [] (tree_constants q.tree) →
        AreColumns facts.direct → AreColumns facts.reverse → Compilable (planned counts q) facts ids }
{}
