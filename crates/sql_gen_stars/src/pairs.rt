//! The SELECTs of pairs, for a predicate that is a variable.

ghost use Rattle.std.specs.Prelude.{◌≡◌, ◌∷◌, [], map, IfOk};
ghost use Rattle.sql_gen_step_laws.specs.StepSelects.{one_item, variable_item};
ghost use Rattle.sql_gen_star_meaning.specs.PairSelects.{pred_tests, pair_sql, pair_core, pairs_body};

use crate::access::row_tests;
use crate::exprs::{PRIMARY, entry, equal, is_there, pred, val};
use crate::selects::{asked_vars, cell_item, one_item, plain_core, source, variable_item};
use query_meaning::VarId;
use sql_gen_star_meaning::Asked;
use sql_meaning::{Body, Core, Item, SqlExpr};
use sqlite_items::Items;
use std::alloc::{AllocError, Global};

/// The pair is there, or has the entity as its predicate where both are one variable.
fn pred_tests(alloc: Global, pair: u32, predicate: Asked) -> Result<Items<SqlExpr>, AllocError>
    ensures { IfOk result (λ tests. tests ≡ pred_tests pair predicate) }
{
    let mut tests = Items::new(alloc);
    match predicate {
        Asked::Again(_) => tests.push(equal(alloc, pred(alloc, pair)?, entry(alloc)?)?)?,
        Asked::New(_) => tests.push(is_there(alloc, pred(alloc, pair)?)?)?,
        Asked::Constant(_) | Asked::Maybe(_) => {}
    }
    Ok(tests)
}

/// A variable's column: the predicate's, or the entity's.
fn pair_expr(alloc: Global, pair: u32, predicate: Asked, v: VarId) -> Result<SqlExpr, AllocError>
    ensures { IfOk result (λ e. e ≡ pair_sql pair predicate v) }
{
    match predicate {
        Asked::New(own) if v.number() == own.number() => pred(alloc, pair),
        _ => entry(alloc),
    }
}

fn pair_items(
    alloc: Global,
    pair: u32,
    predicate: Asked,
    vs: &[VarId],
) -> Result<Items<Item>, AllocError>
    ensures { IfOk result (λ items. items ≡ one_item ∷ map (variable_item (pair_sql pair predicate)) vs.now) }
{
    let mut items = one_item(alloc)?;
    for &v in vs {
        let expr = pair_expr(alloc, pair, predicate, v)?;
        items.push(variable_item(alloc, expr, v)?)?;
    }
    Ok(items)
}

/// The SELECT of the pairs in one column.
fn pair_core(
    alloc: Global,
    primary: &str,
    entity: Asked,
    predicate: Asked,
    pair: u32,
) -> Result<Core, AllocError>
    ensures { IfOk result (λ core. core ≡ pair_core primary.now entity predicate pair) }
{
    let bound = asked_vars(alloc, entity, &[])?;
    let vs = asked_vars(alloc, predicate, bound.as_slice())?;
    let mut items = pair_items(alloc, pair, predicate, vs.as_slice())?;
    items.push(cell_item(alloc, val(alloc, pair)?, 0)?)?;
    let from = source(alloc, primary, PRIMARY)?;
    let mut tests = row_tests(alloc, false, entity)?;
    tests.append(pred_tests(alloc, pair, predicate)?)?;
    Ok(plain_core(alloc, items, from, Items::new(alloc), tests))
}

/// The SELECTs of a star of one arm whose predicate is a variable: each pair of each row that has the entity, with the entity,
/// the predicate and the pair's cell. There is one SELECT for each of so many columns, and all rows are read.
pub fn pairs_body(
    alloc: Global,
    primary: &str,
    entity: Asked,
    predicate: Asked,
    columns: u32,
) -> Result<Body, AllocError>
    ensures { IfOk result (λ body. body ≡ pairs_body primary.now entity predicate columns) }
{
    let mut cores = Items::new(alloc);
    for pair in 0..columns {
        cores.push(pair_core(alloc, primary, entity, predicate, pair)?)?;
    }
    Ok(Body { cores })
}
