//! The script of an out that stands for a plan's tree is right for the plan. The function without a body is the law.
#![tactic(auto)]

ghost use Rattle.std.specs.Prelude.{ℕ, ◌<◌, ◌^◌, List};
ghost use Rattle.layout_meaning.specs.Facts.{FactsOf, IdOf};
ghost use Rattle.query_plan_meaning.specs.declared.plan.Plan.{Plan};
ghost use Rattle.query_merging_meaning.specs.Accesses.{accesses};
ghost use Rattle.sql_gen_meaning.specs.Compilable.{AreShort};
ghost use Rattle.sql_gen_meaning.specs.RightScripts.{IsRightScript};
ghost use Rattle.sql_gen_out_laws.specs.Outs.{Out, count, StandsForNode};
ghost use Rattle.sql_gen_script_laws.specs.Scripts.{script_of};

/// The steps of an out that stands for the plan's tree, under decimal names, with the step of DISTINCT where it comes first,
/// and the last SELECT, are a right script.
pub fn scripts_are_right()
    ensures { (plan : Plan) (facts : FactsOf) (ids : List IdOf) (out : Out) → count out < 2 ^ 64 → AreShort plan.modifiers →
        StandsForNode facts ids plan.tree (accesses facts plan.tree) out → IsRightScript plan facts ids (script_of out plan.modifiers) }
{}
