//! The value of an expression.

ghost use Rattle.std.specs.Prelude.{◌≡◌, map, true, false};
ghost use Rattle.table_meaning.specs.declared.cell.Cell.TheVariants.{Truth};
ghost use Rattle.sql_rows_meaning.specs.Values.{is_true, not_cell, and_cells, or_cells, all_cells, any_cells, first_cell};
ghost use Rattle.rel_cells.specs.Seen.{seen_cell};
ghost use Rattle.sql_bind_meaning.specs.Values.{bound_value};
ghost use Rattle.sql_engine_values.specs.Places.{picked};
ghost use Rattle.sql_engine_values.specs.Known.{known, seen_option, taken};

use crate::cells::{equal_views, is_null, is_true, less_views};
use crate::sources::Sources;
use rel_cells::{CellView, TableSet};
use sql_bind_meaning::{BoundBranch, BoundExpr};

// A truth as a cell.
fn truth_view<'a>(truth: Option<bool>) -> CellView<'a>
    ensures { seen_cell result ≡ known truth }
{
    match truth {
        Some(truth) => CellView::Truth(truth),
        None => CellView::Null,
    }
}

// NOT, which is null of what is no truth.
fn not_view(cell: CellView<'_>) -> Option<bool>
    ensures { known result ≡ not_cell (seen_cell cell.entry) }
{
    match cell {
        CellView::Truth(truth) => Some(!truth),
        _ => None,
    }
}

// AND of what there is so far and one more cell.
fn and_view(so_far: Option<bool>, cell: CellView<'_>) -> Option<bool>
    ensures { known result ≡ and_cells (known so_far) (and_cells (seen_cell cell.entry) (Truth true)) }
{
    match (so_far, cell) {
        (Some(false), _) | (_, CellView::Truth(false)) => Some(false),
        (Some(true), CellView::Truth(true)) => Some(true),
        _ => None,
    }
}

// OR of what there is so far and one more cell.
fn or_view(so_far: Option<bool>, cell: CellView<'_>) -> Option<bool>
    ensures { known result ≡ or_cells (known so_far) (or_cells (seen_cell cell.entry) (Truth false)) }
{
    match (so_far, cell) {
        (Some(true), _) | (_, CellView::Truth(true)) => Some(true),
        (Some(false), CellView::Truth(false)) => Some(false),
        _ => None,
    }
}

/// The value of an expression over the rows with these numbers.
#[cycle(value)]
#[tactic(auto, using(crate::proofs::Level::values))]
pub fn value<'a, T: TableSet>(
    expression: &'a BoundExpr,
    sources: &'a Sources<'a, T>,
    rows: &[usize],
) -> CellView<'a>
    ensures { seen_cell result ≡ bound_value expression.now (picked sources.now rows.now) }
{
    match expression {
        BoundExpr::Cell(source, column) => sources.picked_cell(rows, *source, *column),
        BoundExpr::Int(number) => CellView::Int(*number),
        BoundExpr::Text(text) => CellView::Text(text),
        BoundExpr::Truth(truth) => CellView::Truth(*truth),
        BoundExpr::Null => CellView::Null,
        BoundExpr::Equal(a, b) => truth_view(equal_views(
            value(a.get(), sources, rows),
            value(b.get(), sources, rows),
        )),
        BoundExpr::Less(a, b) => truth_view(less_views(
            value(a.get(), sources, rows),
            value(b.get(), sources, rows),
        )),
        BoundExpr::All(parts) => truth_view(all_of(parts.as_slice(), sources, rows)),
        BoundExpr::Any(parts) => truth_view(any_of(parts.as_slice(), sources, rows)),
        BoundExpr::Not(part) => truth_view(not_view(value(part.get(), sources, rows))),
        BoundExpr::IsNull(part) => { CellView::Truth(is_null(value(part.get(), sources, rows))) }
        BoundExpr::Case(branches, last) => {
            match case_of(branches.as_slice(), sources, rows) {
                Some(cell) => cell,
                None => value(last.get(), sources, rows),
            }
        }
        BoundExpr::First(parts) => first_of(parts.as_slice(), sources, rows),
    }
}

#[cycle(value)]
fn all_of<'a, T: TableSet>(
    parts: &'a [BoundExpr],
    sources: &'a Sources<'a, T>,
    rows: &[usize],
) -> Option<bool>
    ensures { known result ≡ all_cells (map (λ e. bound_value e (picked sources.now rows.now)) parts.now) }
{
    let mut so_far = Some(true);
    for part in parts {
        so_far = and_view(so_far, value(part, sources, rows));
        if so_far == Some(false) {
            return Some(false);
        }
    }
    so_far
}

#[cycle(value)]
fn any_of<'a, T: TableSet>(
    parts: &'a [BoundExpr],
    sources: &'a Sources<'a, T>,
    rows: &[usize],
) -> Option<bool>
    ensures { known result ≡ any_cells (map (λ e. bound_value e (picked sources.now rows.now)) parts.now) }
{
    let mut so_far = Some(false);
    for part in parts {
        so_far = or_view(so_far, value(part, sources, rows));
        if so_far == Some(true) {
            return Some(true);
        }
    }
    so_far
}

// The first that isn't null.
#[cycle(value)]
fn first_of<'a, T: TableSet>(
    parts: &'a [BoundExpr],
    sources: &'a Sources<'a, T>,
    rows: &[usize],
) -> CellView<'a>
    ensures { seen_cell result ≡ first_cell (map (λ e. bound_value e (picked sources.now rows.now)) parts.now) }
{
    for part in parts {
        let cell = value(part, sources, rows);
        if !is_null(cell) {
            return cell;
        }
    }
    CellView::Null
}

// The value of the first branch whose test is true.
#[cycle(value)]
fn case_of<'a, T: TableSet>(
    branches: &'a [BoundBranch],
    sources: &'a Sources<'a, T>,
    rows: &[usize],
) -> Option<CellView<'a>>
    ensures { seen_option result ≡ taken (picked sources.now rows.now) branches.now }
{
    for branch in branches {
        if is_true(value(&branch.test, sources, rows)) {
            return Some(value(&branch.value, sources, rows));
        }
    }
    None
}

/// Whether an expression over the rows with these numbers is true.
pub fn value_is_true<'a, T: TableSet>(
    expression: &'a BoundExpr,
    sources: &'a Sources<'a, T>,
    rows: &[usize],
) -> bool
    ensures { result ≡ is_true (bound_value expression.now (picked sources.now rows.now)) }
{
    is_true(value(expression, sources, rows))
}
