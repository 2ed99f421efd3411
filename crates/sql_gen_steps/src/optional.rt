//! The SELECTs of a LeftJoin with a condition: the pairs that fit, those of which the condition is true, and these with the
//! rows of the left side that have none.

ghost use Rattle.std.specs.Prelude.{◌≡◌, ◌∷◌, ◌++◌, [], map, IfOk, OnOk};
ghost use Rattle.sql_meaning.specs.declared.expression.SqlExpr.TheVariants as sql;
ghost use Rattle.sql_gen_step_laws.specs.StepSelects.{every, left_alias, right_alias, cell_of};
ghost use Rattle.sql_gen_optional_laws.specs.MatchRows.{kept, kept_item, kept_sql, unmatched_core, optional_body};
ghost use Rattle.sql_gen_matched_laws.specs.PassedSelect.{still_item, passed_core};
ghost use Rattle.sql_gen_numbered_meaning.specs.Numbered.{pairs_core};

use crate::exprs::{LEFT, RIGHT, cell, equal, every, is_null, shared_tests};
use crate::filters::{Condition, term_joins};
use crate::items::{merged_items, own_items};
use crate::joins::{Carrier, one_join, plain_core, project_core};
use crate::names::kept_column;
use crate::variables::{both, has};
use query_meaning::VarId;
use rdf_meaning::text_of;
use sql_meaning::{Body, Core, Item, SqlExpr};
use sqlite_items::Items;
use std::alloc::{AllocError, Global};

/// The columns of what the left side binds, behind others.
fn push_kept(alloc: Global, items: &mut Items<Item>, variables: &[VarId]) -> Result<(), AllocError>
    ensures { OnOk result (items.new ≡ items.old ++ map kept_item variables.now) }
{
    for &v in variables {
        let expr = cell(alloc, LEFT, v)?;
        let name = kept_column(alloc, v)?;
        items.push(Item { expr, name })?;
    }
    Ok(())
}

/// The SELECT of the pairs of a LeftJoin with a condition (SPARQL 1.1 Query, section 18.5, LeftJoin): each pair of rows that
/// fits, with what both bind and, under other names, what the left side binds. It refuses for want of memory alone.
pub fn pairs_core(
    alloc: Global,
    first: Carrier,
    second: Carrier,
    certain: &[VarId],
) -> Result<Core, AllocError>
    ensures { IfOk result (λ c. c ≡ pairs_core first.entry.name.now second.entry.name.now first.entry.variables.now second.entry.variables.now certain.now) }
{
    let all = both(alloc, first.variables, second.variables)?;
    let mut items = merged_items(alloc, first.variables, second.variables, &all)?;
    push_kept(alloc, &mut items, first.variables)?;
    let on = shared_tests(alloc, first.variables, second.variables, certain)?;
    let joins = one_join(alloc, false, second.name, on)?;
    plain_core(alloc, items, first.name, joins, Some(SqlExpr::Truth(true)))
}

/// The columns of what the left side binds, as the pairs have them, behind others.
fn push_still(alloc: Global, items: &mut Items<Item>, variables: &[VarId]) -> Result<(), AllocError>
    ensures { OnOk result (items.new ≡ items.old ++ map still_item variables.now) }
{
    for &v in variables {
        let alias = text_of(alloc, LEFT)?;
        let expr = SqlExpr::Name(alias, kept_column(alloc, v)?);
        let name = kept_column(alloc, v)?;
        items.push(Item { expr, name })?;
    }
    Ok(())
}

/// The SELECT of those pairs of which the condition is true: `pairs` carries what both sides bind, and beside it what the
/// left side binds, whose variables are `left`. It refuses for want of memory alone.
pub fn passed_core(
    alloc: Global,
    pairs: Carrier,
    left: &[VarId],
    condition: Condition,
) -> Result<Core, AllocError>
    ensures { IfOk result (λ c. c ≡ passed_core pairs.entry.name.now condition.entry.terms.now left.now pairs.entry.variables.now condition.entry.variables.now condition.entry.test) }
{
    let Condition {
        terms,
        variables,
        test,
    } = condition;
    let mut items = own_items(alloc, pairs.variables, pairs.variables)?;
    push_still(alloc, &mut items, left)?;
    let joins = term_joins(alloc, terms, pairs.variables, variables)?;
    plain_core(alloc, items, pairs.name, joins, Some(test))
}

/// A row and a match have this id for a variable.
fn kept_cells(alloc: Global, v: VarId) -> Result<SqlExpr, AllocError>
    ensures { IfOk result (λ e. e ≡ sql.Equal (sql.Name right_alias (kept v)) (cell_of left_alias v)) }
{
    let its = kept_cell(alloc, v)?;
    equal(alloc, its, cell(alloc, LEFT, v)?)
}

/// What the left side of a match binds.
fn kept_cell(alloc: Global, v: VarId) -> Result<SqlExpr, AllocError>
    ensures { IfOk result (λ e. e ≡ sql.Name right_alias (kept v)) }
{
    let alias = text_of(alloc, RIGHT)?;
    Ok(SqlExpr::Name(alias, kept_column(alloc, v)?))
}

/// Neither has an id for a variable.
fn both_null(alloc: Global, v: VarId) -> Result<SqlExpr, AllocError>
    ensures { IfOk result (λ e. e ≡ sql.All (sql.IsNull (sql.Name right_alias (kept v)) ∷ sql.IsNull (cell_of left_alias v) ∷ [])) }
{
    let mut parts = Items::new(alloc);
    parts.push(is_null(alloc, kept_cell(alloc, v)?)?)?;
    parts.push(is_null(alloc, cell(alloc, LEFT, v)?)?)?;
    Ok(SqlExpr::All(parts))
}

/// A row is a match's left side as far as a variable goes: plain equality where the rows are certain to bind it.
fn kept_test(alloc: Global, certain: &[VarId], v: VarId) -> Result<SqlExpr, AllocError>
    ensures { IfOk result (λ e. e ≡ kept_sql certain.now v) }
{
    let same = kept_cells(alloc, v)?;
    if has(certain, v) {
        return Ok(same);
    }
    let mut parts = Items::new(alloc);
    parts.push(same)?;
    parts.push(both_null(alloc, v)?)?;
    Ok(SqlExpr::Any(parts))
}

/// A row is a match's left side.
fn kept_tests(alloc: Global, certain: &[VarId], variables: &[VarId]) -> Result<SqlExpr, AllocError>
    ensures { IfOk result (λ e. e ≡ every (map (kept_sql certain.now) variables.now)) }
{
    let mut tests = Items::new(alloc);
    for &v in variables {
        tests.push(kept_test(alloc, certain, v)?)?;
    }
    Ok(every(tests))
}

/// The rows of the left side that are no match's, with the columns of both sides.
fn unmatched_core(
    alloc: Global,
    first: Carrier,
    matches: &str,
    right: &[VarId],
    certain: &[VarId],
) -> Result<Core, AllocError>
    ensures { IfOk result (λ c. c ≡ unmatched_core first.entry.name.now matches.now first.entry.variables.now right.now certain.now) }
{
    let all = both(alloc, first.variables, right)?;
    let items = own_items(alloc, first.variables, &all)?;
    let on = kept_tests(alloc, certain, first.variables)?;
    let joins = one_join(alloc, true, matches, on)?;
    let ones = SqlExpr::Name(text_of(alloc, RIGHT)?, text_of(alloc, "one")?);
    let missing = is_null(alloc, ones)?;
    plain_core(alloc, items, first.name, joins, Some(missing))
}

/// The last body of a LeftJoin with a condition (SPARQL 1.1 Query, section 18.5, LeftJoin): the matches, and the rows of
/// the left side without one. `matches` is the step of the matches, `right` the variables of the right side; the rows
/// of the left side are certain to bind `certain`. It refuses for want of memory alone.
pub fn optional_body(
    alloc: Global,
    first: Carrier,
    matches: &str,
    right: &[VarId],
    certain: &[VarId],
) -> Result<Body, AllocError>
    ensures { IfOk result (λ b. b ≡ optional_body first.entry.name.now matches.now first.entry.variables.now right.now certain.now) }
{
    let all = both(alloc, first.variables, right)?;
    let found = Carrier {
        name: matches,
        variables: &all,
    };
    let mut cores = Items::new(alloc);
    cores.push(project_core(alloc, found, &all)?)?;
    cores.push(unmatched_core(alloc, first, matches, right, certain)?)?;
    Ok(Body { cores })
}
