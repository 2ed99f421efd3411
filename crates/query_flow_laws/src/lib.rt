//! Laws of flows and of the plans that follow them. The functions without a body are laws.
#![tactic(auto)]

ghost use Rattle.std.specs.Prelude.{◌≡◌, ℕ, true, List};
ghost use Rattle.std.specs.List.{list_any, list_all, IsDistinct};
ghost use Rattle.rdf_meaning.specs.Terms.{RdfTerm, RdfTriple, same_term};
ghost use Rattle.layout_meaning.specs.Facts.{CountOf, CountsOf};
ghost use Rattle.layout_counts_meaning.specs.Counts.{count_of, counts_over};
ghost use Rattle.query_meaning.specs.declared.pattern.Slot.TheVariants.{Const};
ghost use Rattle.query_meaning.specs.declared.pattern.Pattern.{Pattern};
ghost use Rattle.query_meaning.specs.declared.query.Query.{Query};
ghost use Rattle.query_meaning.specs.declared.tree.Tree.{Tree};
ghost use Rattle.query_plan_meaning.specs.Plans.{every_leaf, ComesFrom};
ghost use Rattle.query_flow_meaning.specs.Flow.{Choice, IsFlow, IsGreedy, same_number, end_cost, flow_of};
ghost use Rattle.query_flow_meaning.specs.Planned.{is_ready, planned_tree, planned};
ghost use Rattle.query_merging_meaning.specs.Merging.{is_single};

/// Each leaf has a flow.
pub fn some_flow()
    ensures { (counts : CountsOf) (patterns : List Pattern) → IsFlow counts patterns (flow_of counts patterns) }
{}

/// It has no other, where no two patterns have one number.
pub fn flows_are_one()
    ensures { (counts : CountsOf) (patterns : List Pattern) → IsDistinct same_number patterns →
        (flow other : List Choice) → IsFlow counts patterns flow → IsFlow counts patterns other → flow ≡ other }
{}

/// A flow takes each pattern once, and each choice is the least one among its own pattern and those that follow.
pub fn flows_are_greedy()
    ensures { (counts : CountsOf) (patterns : List Pattern) → IsDistinct same_number patterns →
        (flow : List Choice) → IsFlow counts patterns flow → IsGreedy counts patterns flow }
{}

/// A constant costs its own count of triples, where the counts name it.
// For the flow over what is present.
pub fn constants_cost_their_counts()
    ensures { (place : CountOf → ℕ) (ends : ℕ) (g : List RdfTriple) (terms : List RdfTerm) (t : RdfTerm) →
        list_any (same_term t) terms ≡ true → end_cost (counts_over g terms) place ends (Const t) ≡ place (count_of g t) }
{}

/// The plan that follows the flow of each leaf comes from its query.
// For the planner.
pub fn planned_plans_come_from_queries()
    ensures { (counts : CountsOf) (q : Query) → every_leaf is_ready q.tree ≡ true → ComesFrom q (planned counts q) }
{}

/// Its stars have one required arm each.
// For what merging asks of a plan.
pub fn planned_stars_are_single()
    ensures { (counts : CountsOf) (tree : Tree (List Pattern)) → every_leaf (list_all is_single) (planned_tree counts tree) ≡ true }
{}
