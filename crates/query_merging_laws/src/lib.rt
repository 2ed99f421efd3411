//! Laws of merged plans. The functions without a body are laws.
#![tactic(auto)]

ghost use Rattle.std.specs.Prelude.{◌≡◌, true, List};
ghost use Rattle.std.specs.List.{list_all};
ghost use Rattle.layout_meaning.specs.Facts.{SpilledTerms};
ghost use Rattle.query_meaning.specs.declared.query.Query.{Query};
ghost use Rattle.query_plan_meaning.specs.declared.plan.Plan.{Plan};
ghost use Rattle.query_plan_meaning.specs.Plans.{every_leaf, ComesFrom};
ghost use Rattle.query_merging_meaning.specs.Merging.{is_single, is_plain_where_several, merged_tree, merged};

/// Where the stars of a plan have one required arm each, the merged plan comes from every query that the plan comes from.
// For merging.
pub fn merged_plans_come_from_the_query()
    ensures { (spilled : SpilledTerms) (q : Query) (plan : Plan) → every_leaf (list_all is_single) plan.tree ≡ true →
        ComesFrom q plan → ComesFrom q (merged spilled plan) }
{}

/// Its stars of several arms are plain.
// For what compiling asks of a plan.
pub fn merged_stars_of_several_arms_are_plain()
    ensures { (spilled : SpilledTerms) (q : Query) (plan : Plan) → every_leaf (list_all is_single) plan.tree ≡ true →
        ComesFrom q plan → every_leaf (list_all (is_plain_where_several spilled)) (merged_tree spilled plan.tree) ≡ true }
{}
