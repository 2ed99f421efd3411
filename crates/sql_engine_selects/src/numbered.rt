//! Picked rows by their numbers.

ghost use Rattle.std.specs.Prelude.{◌≡◌, IfOk};
ghost use Rattle.std.specs.List.{range_with_len};
ghost use Rattle.sql_engine_selects.specs.Numbered.{row_at, without_first, at_most};

use sql_engine_joins::PickedRows;
use std::alloc::{AllocError, Global};

/// One row; without numbers where there is no such row.
pub(crate) fn row_at(rows: &PickedRows, at: usize) -> &[usize]
    ensures { result.now ≡ row_at rows.now at }
{
    if at < rows.count() { rows.row(at) } else { &[] }
}

/// The numbers from 0 on, as many as asked.
#[tactic(auto, using(crate::proofs::Ordered::numbers_next))]
pub(crate) fn first_numbers(alloc: Global, count: usize) -> Result<Vec<usize>, AllocError>
    ensures { IfOk result (λ numbers. numbers.items ≡ range_with_len 0 count) }
{
    let mut numbers = Vec::with_capacity(alloc, count)?;
    for number in 0..count {
        numbers.push(number)?;
    }
    Ok(numbers)
}

// Without those of OFFSET.
#[tactic(auto, using(std::proofs::lemmas::List::drop_min))]
fn without_first<X>(rows: &[X], skip: Option<u64>) -> &[X]
    ensures { result.now ≡ without_first skip rows.now }
{
    match skip {
        Some(skip) => &rows[(skip as usize).min(rows.len())..],
        None => rows,
    }
}

// At most as many as LIMIT says.
#[tactic(auto, using(std::proofs::lemmas::List::take_min))]
fn at_most<X>(rows: &[X], most: Option<u64>) -> &[X]
    ensures { result.now ≡ at_most most rows.now }
{
    match most {
        Some(most) => &rows[..(most as usize).min(rows.len())],
        None => rows,
    }
}

/// What OFFSET and LIMIT leave.
pub(crate) fn cut<X>(rows: &[X], skip: Option<u64>, most: Option<u64>) -> &[X]
    ensures { result.now ≡ at_most most (without_first skip rows.now) }
{
    at_most(without_first(rows, skip), most)
}
