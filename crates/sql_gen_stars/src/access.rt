//! The SELECT that reads the primary table.

ghost use Rattle.std.specs.Prelude.{◌≡◌, ◌≤◌, ◌+◌, ◌++◌, ◌∷◌, [], map, length, IfOk};
ghost use Rattle.sql_gen_step_laws.specs.StepSelects.{one_item, variable_item};
ghost use Rattle.sql_gen_star_meaning.specs.StarSelects.{found_sql, branch_sql, spill_tests, entity_tests, entity_sql, access_core};
ghost use Rattle.sql_gen_star_meaning.specs.Openings.{openings_from, access_arms, cells_of};
ghost use Rattle.sql_gen_stars.specs.ArmItems.{arm_items};

use crate::exprs::{PRIMARY, entry, equal, int, named, pred, val};
use crate::selects::{asked_vars, cell_item, one_item, plain_core, source, variable_item};
use query_meaning::VarId;
use rdf_meaning::text_of;
use sql_gen_star_meaning::{Asked, StarArm};
use sql_meaning::{Branch, Core, Item, SqlExpr};
use sqlite_items::{Boxed, Items};
use std::alloc::{AllocError, Global};
use table_meaning::Kind;

fn branch(alloc: Global, id: u32, pair: u32) -> Result<Branch, AllocError>
    ensures { IfOk result (λ branch. branch ≡ branch_sql id pair) }
{
    let test = equal(alloc, pred(alloc, pair)?, int(id))?;
    let value = val(alloc, pair)?;
    Ok(Branch { test, value })
}

/// The cell under a predicate, in whichever of its columns it stands.
fn found(alloc: Global, id: u32, pairs: &[u32]) -> Result<SqlExpr, AllocError>
    ensures { IfOk result (λ e. e ≡ found_sql id pairs.now) }
{
    let mut branches = Items::new(alloc);
    for &pair in pairs {
        branches.push(branch(alloc, id, pair)?)?;
    }
    let nothing = Boxed::new(alloc, SqlExpr::Null(Kind::Int))?;
    Ok(SqlExpr::Case(branches, nothing))
}

/// Which rows are read: those of number 0 alone, or all; and of one entity where it is a constant.
pub(crate) fn row_tests(
    alloc: Global,
    first: bool,
    entity: Asked,
) -> Result<Items<SqlExpr>, AllocError>
    ensures { IfOk result (λ tests. tests ≡ spill_tests first ++ entity_tests entity) }
{
    let mut tests = Items::new(alloc);
    if first {
        let spill = named(alloc, PRIMARY, text_of(alloc, "spill")?)?;
        tests.push(equal(alloc, spill, int(0))?)?;
    }
    if let Asked::Constant(id) = entity {
        tests.push(equal(alloc, entry(alloc)?, int(id))?)?;
    }
    Ok(tests)
}

/// The column of ones, and the entity's where it is a variable.
fn entity_items(alloc: Global, vs: &[VarId]) -> Result<Items<Item>, AllocError>
    ensures { IfOk result (λ items. items ≡ one_item ∷ map (variable_item entity_sql) vs.now) }
{
    let mut items = one_item(alloc)?;
    for &v in vs {
        items.push(variable_item(alloc, entry(alloc)?, v)?)?;
    }
    Ok(items)
}

/// The cell of each arm.
fn arm_items(alloc: Global, arms: &[StarArm]) -> Result<Items<Item>, AllocError>
    requires { length arms.now ≤ 100 }
    ensures { IfOk result (λ items. items ≡ arm_items 0 arms.now) }
{
    let mut items = Items::new(alloc);
    let mut number = 0;
    for arm in arms {
        let cell = found(alloc, arm.pred, arm.columns.as_slice())?;
        items.push(cell_item(alloc, cell, number)?)?;
        number += 1;
    }
    Ok(items)
}

/// The SELECT that reads the primary table once: of each row that has the entity, the entity and the cell of each arm.
/// Where `first` is true, the rows of number 0 alone are read. There are at most 100 arms, the two lists of an Either star
/// together.
#[tactic(auto, using(crate::proofs::Parts::all_items))]
pub fn access_core(
    alloc: Global,
    primary: &str,
    first: bool,
    entity: Asked,
    arms: &[StarArm],
) -> Result<Core, AllocError>
    requires { length arms.now ≤ 100 }
    ensures { IfOk result (λ core. core ≡ access_core primary.now first entity (access_arms arms.now) (cells_of (openings_from 0 arms.now))) }
{
    let vs = asked_vars(alloc, entity, &[])?;
    let mut items = entity_items(alloc, vs.as_slice())?;
    items.append(arm_items(alloc, arms)?)?;
    let from = source(alloc, primary, PRIMARY)?;
    let tests = row_tests(alloc, first, entity)?;
    Ok(plain_core(alloc, items, from, Items::new(alloc), tests))
}
