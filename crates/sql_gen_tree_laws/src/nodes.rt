//! Outs of trees.

ghost use Rattle.std.specs.Prelude.{◌≡◌, true, pos, List};
ghost use Rattle.std.specs.List.{list_all};
ghost use Rattle.table_meaning.specs.Ints.{is_wide_int};
ghost use Rattle.layout_meaning.specs.Facts.{FactsOf, IdOf};
ghost use Rattle.query_meaning.specs.declared.tree.Tree.{Tree};
ghost use Rattle.query_plan_meaning.specs.declared.star.Star.{Star};
ghost use Rattle.query_plan_meaning.specs.declared.plan.Plan.{Plan};
ghost use Rattle.query_plan_meaning.specs.Plans.{every_leaf, expressions_of};
ghost use Rattle.query_merging_meaning.specs.Accesses.{accesses};
ghost use Rattle.sql_gen_meaning.specs.Compilable.{Compilable, has_few_arms};
ghost use Rattle.sql_gen_filter_form_laws.specs.Written.{is_written};
ghost use Rattle.sql_gen_out_laws.specs.Outs.{StandsForNode};
ghost use Rattle.sql_gen_scripts.specs.Arms.{HaveNamedArms};
ghost use Rattle.sql_gen_tree_laws.specs.TreeOuts.{tree_out};

/// Where a plan may be compiled, the constants of its conditions can be written and the ids are ints of the dialect, the out of
/// its tree stands for the tree, and reads a primary table as often as the tree counts accesses.
pub fn trees_stand()
    ensures { (plan : Plan) (facts : FactsOf) (ids : List IdOf) → Compilable plan facts ids → list_all (λ (i : IdOf). is_wide_int (pos i.id)) ids ≡ true → list_all is_written (expressions_of plan.tree) ≡ true →
        StandsForNode facts ids plan.tree (accesses facts plan.tree) (tree_out facts ids plan.tree) }
{}

/// Where no star has more than 100 arms, two digits tell apart the cells of each step.
pub fn trees_have_named_arms()
    ensures { (facts : FactsOf) (ids : List IdOf) (tree : Tree (List Star)) → every_leaf (list_all has_few_arms) tree ≡ true → HaveNamedArms (tree_out facts ids tree).steps }
{}
