//! FROM in runs of rows, in threads.

ghost use Rattle.std.specs.Prelude.{◌≡◌, ◌≤◌, ◌<◌, ◌-◌, ◌+◌, ◌*◌, ◌/◌, ◌%◌, ◌∷◌, [], ℕ, Some, length, map, min, IfOk, OnOk, All, IsOk, slice_index_or};
ghost use Rattle.std.specs.List.{flat_map, range_with_len};
ghost use Rattle.sql_bind_meaning.specs.Sources.{relation_rows, bound_all_joined};
ghost use Rattle.sql_bind_meaning.specs.Selects.{bound_sources, bound_passed};
ghost use Rattle.sql_engine_values.specs.Places.{join_numbers, source_numbers};
ghost use Rattle.sql_engine_joins.specs.Rows.{all_picked};
ghost use Rattle.sql_engine_joins.specs.Runs.{one_number, row_gives, IsRun, run_rows};

use crate::filters::passed;
use crate::joins::all_joined;
use crate::picked_rows::PickedRows;
use rel_cells::TableSet;
use sql_bind_meaning::BoundCore;
use sql_engine_values::Sources;
use std::alloc::{AllocError, Global};
use std::thread;
use std::thread::Threads;

// The rows of FROM from start to end, each alone.
fn first_rows(alloc: Global, start: usize, end: usize) -> Result<PickedRows, AllocError>
    requires { start ≤ end }
    ensures { IfOk result (λ rows. rows ≡ record { width = 1; rows = map one_number (range_with_len start (end - start)) }) }
{
    let mut rows = PickedRows::new(alloc, 1);
    for row in start..end {
        rows.push(&[row])?;
    }
    Ok(rows)
}

// What the joins and WHERE give for the rows of FROM from start to end.
fn run_rows<'a, T: TableSet>(
    alloc: Global,
    core: &'a BoundCore,
    relation: usize,
    sources: &'a Sources<'a, T>,
    start: usize,
    end: usize,
) -> Result<PickedRows, AllocError>
    requires order { start ≤ end }
    requires sources { sources.now.numbers ≡ relation ∷ join_numbers core.now.joins }
    ensures { IfOk result (λ rows. IsRun sources.now core.now relation start (end - start) rows) }
{
    let first = first_rows(alloc, start, end)?;
    let joined = all_joined(alloc, core.joins.as_slice(), sources, first)?;
    let rows = passed(alloc, &core.condition, sources, joined)?;
    Ok(rows)
}

// What the run that begins at a row gives; the last one may be shorter.
#[tactic(auto, using(crate::proofs::Chunks::run_count))]
fn one_run<'a, T: TableSet>(
    alloc: Global,
    core: &'a BoundCore,
    relation: usize,
    sources: &'a Sources<'a, T>,
    start: usize,
    size: usize,
    count: usize,
) -> Result<PickedRows, AllocError>
    requires start { start < count }
    requires sources { sources.now.numbers ≡ relation ∷ join_numbers core.now.joins }
    ensures { IfOk result (λ rows. IsRun sources.now core.now relation start (min size (count - start)) rows) }
{
    let end = start + size.min(count - start);
    run_rows(alloc, core, relation, sources, start, end)
}

// What each run of `size` rows gives, in threads.
#[tactic(auto, using(crate::proofs::Chunks::chunk_starts))]
fn all_runs<'a, T: TableSet + Sync, R: Threads + Sync>(
    rt: &R,
    alloc: Global,
    core: &'a BoundCore,
    relation: usize,
    sources: &'a Sources<'a, T>,
    size: usize,
    count: usize,
) -> Result<Vec<Result<PickedRows, AllocError>>, AllocError>
    requires size { 0 < size }
    requires sources { sources.now.numbers ≡ relation ∷ join_numbers core.now.joins }
    ensures len { IfOk result (λ runs. length runs.items ≡ count / size + min 1 (count % size)) }
    ensures each { IfOk result (λ runs. (n : ℕ) (d : _) → n < length runs.items → IfOk (slice_index_or runs.items n d) (λ rows. IsRun sources.now core.now relation (n * size) (min size (count - n * size)) rows)) }
{
    let run = move |n: usize| -> Result<PickedRows, AllocError>
        requires { (n * size < count) × (sources.now.numbers ≡ relation ∷ join_numbers core.now.joins) }
        ensures { IfOk result (λ rows. IsRun sources.entry.now core.entry.now relation (n * size) (min size (count - n * size)) rows) }
    { one_run(alloc, core, relation, sources, n * size, size, count) };
    thread::map_indices(rt, alloc, count.div_ceil(size), &run)
}

// The rows of the runs, one run after another; the first refusal, where there is one.
fn put_together(
    alloc: Global,
    width: usize,
    runs: &[Result<PickedRows, AllocError>],
) -> Result<PickedRows, AllocError>
    requires { All (λ run. IfOk run (λ rows. rows.width ≡ width)) runs.now }
    ensures rows { IfOk result (λ all. all ≡ record { width = width; rows = flat_map run_rows runs.now }) }
    ensures done { OnOk result (All IsOk runs.now) }
{
    let mut all = PickedRows::new(alloc, width);
    for run in runs {
        match run {
            Ok(rows) => all.append(rows)?,
            Err(AllocError) => return Err(AllocError),
        }
    }
    Ok(all)
}

// The rows of a relation, in so many runs.
fn in_pieces<'a, T: TableSet + Sync, R: Threads + Sync>(
    rt: &R,
    alloc: Global,
    core: &'a BoundCore,
    relation: usize,
    sources: &'a Sources<'a, T>,
    pieces: usize,
) -> Result<PickedRows, AllocError>
    requires pieces { 1 ≤ pieces }
    requires sources { sources.now.numbers ≡ relation ∷ join_numbers core.now.joins }
    ensures { IfOk result (λ rows. all_picked sources.now rows ≡ flat_map (row_gives sources.now.relations core.now relation) (range_with_len 0 (length (relation_rows sources.now.relations relation)))) }
{
    let count = sources.relations().count(relation);
    let size = count.div_ceil(pieces);
    // One run needs no thread.
    if size == count {
        return run_rows(alloc, core, relation, sources, 0, count);
    }
    let runs = all_runs(rt, alloc, core, relation, sources, size, count)?;
    put_together(alloc, sources.count(), &runs)
}

// A SELECT without FROM has one row.
fn without_from<'a, T: TableSet>(
    alloc: Global,
    core: &'a BoundCore,
    sources: &'a Sources<'a, T>,
) -> Result<PickedRows, AllocError>
    requires { sources.now.numbers ≡ join_numbers core.now.joins }
    ensures { IfOk result (λ rows. all_picked sources.now rows ≡ bound_passed core.now.condition (bound_all_joined sources.now.relations core.now.joins ([] ∷ []))) }
{
    let mut first = PickedRows::new(alloc, 0);
    first.push(&[])?;
    let joined = all_joined(alloc, core.joins.as_slice(), sources, first)?;
    let rows = passed(alloc, &core.condition, sources, joined)?;
    Ok(rows)
}

/// What the sources of a SELECT and its WHERE give, in the order of the sources. The rows of FROM are cut into so many runs, each
/// of which is joined and filtered by a thread of its own; the answer is the same for each number of them.
#[tactic(auto, using(crate::proofs::Cut::all_rows))]
pub fn passed_rows<'a, T: TableSet + Sync, R: Threads + Sync>(
    rt: &R,
    alloc: Global,
    core: &'a BoundCore,
    sources: &'a Sources<'a, T>,
    pieces: usize,
) -> Result<PickedRows, AllocError>
    requires pieces { 1 ≤ pieces }
    requires sources { sources.now.numbers ≡ source_numbers core.now }
    ensures { IfOk result (λ rows. all_picked sources.now rows ≡ bound_passed core.now.condition (bound_sources sources.now.relations core.now)) }
{
    match core.from {
        Some(relation) => in_pieces(rt, alloc, core, relation, sources, pieces),
        None => without_from(alloc, core, sources),
    }
}
