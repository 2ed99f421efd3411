//! Compiling a plan.

ghost use Rattle.std.specs.Prelude.{◌≡◌, ◌<◌, ◌^◌, true, pos, length, IfOk};
ghost use Rattle.std.specs.List.{list_all};
ghost use Rattle.table_meaning.specs.Ints.{is_wide_int};
ghost use Rattle.layout_meaning.specs.Facts.{IdOf};
ghost use Rattle.sql_gen_meaning.specs.Compilable.{Compilable};
ghost use Rattle.sql_gen_meaning.specs.RightScripts.{IsRightScript};

use crate::trees::Compiler;
use pred_columns::{IdPair, LayoutFacts, QueryIds};
use query_plan_meaning::Plan;
use query_tree_fold::fold_tree;
use sql_gen_numbered_meaning::NumberedBody;
use sql_gen_scripts::script;
use sql_meaning::Script;
use std::alloc::{AllocError, Global};

// An id is an int of the dialect, by its type.
fn id_is_wide(id: u32)
    ensures { is_wide_int (pos id) ≡ true }
{
    let _ = id;
}

fn ids_are_wide(ids: &[IdPair])
    ensures { list_all (λ (i : IdOf). is_wide_int (pos i.id)) ids.now ≡ true }
{
    for pair in ids {
        id_is_wide(pair.id);
    }
}

// There are no more steps than 64 bits count.
fn steps_are_counted(steps: &[NumberedBody])
    ensures { length steps.now < 2 ^ 64 }
{
    steps.len();
}

/// The script of a plan that may be compiled (SPARQL 1.1 Query, section 18): over all tables with these columns, spilled
/// predicates and ids, its rows are read as the plan's answer; it can be written, binds to the columns of the answer, and reads a
/// primary table as often as the plan counts accesses.
///
/// # Errors
///
/// Want of memory.
pub fn compile(
    alloc: Global,
    plan: &Plan,
    facts: &LayoutFacts,
    ids: &QueryIds,
) -> Result<Script, AllocError>
    requires { Compilable plan.now facts.now ids.now }
    ensures { IfOk result (IsRightScript plan.now facts.now ids.now) }
{
    ids_are_wide(ids.pairs.as_slice());
    let out = fold_tree(alloc, &mut Compiler { facts, ids }, &plan.tree)?;
    steps_are_counted(out.steps.as_slice());
    script(alloc, out, &plan.modifiers)
}
