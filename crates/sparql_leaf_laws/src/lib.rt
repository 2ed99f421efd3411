//! A law of the leaves of read queries. The function without a body is the law.
#![tactic(auto)]

ghost use Rattle.std.specs.Prelude.{◌≡◌, true};
ghost use Rattle.query_meaning.specs.declared.query.Query.{Query};
ghost use Rattle.query_plan_meaning.specs.Plans.{every_leaf};
ghost use Rattle.query_flow_meaning.specs.Planned.{are_numbered_apart};
ghost use Rattle.sparql_query_meaning.specs.Fragment.{OfFragment};

/// No two patterns of a leaf of a query of the fragment have one number.
// For the flow of each leaf, and for the plan that follows it.
pub fn leaves_are_numbered_apart()
    ensures { (q : Query) → OfFragment q → every_leaf are_numbered_apart q.tree ≡ true }
{}
