//! Runs the cases of its files through the program in memory, and tells which end otherwise than they say.
//!
//! The file `list` names the files of cases, one a line. docs/worked-runs.md says how a case is written.
#![tactic(auto)]

mod blocks;
mod case;
mod content;
mod differences;
mod escapes;
mod runs;
mod template;

use anyhow::{Context, Result, ensure};
use blocks::{Block, blocks_of};
use case::case_of;
use differences::differences;
use runs::{Earlier, outcome_of};
use std::alloc::Global;
use std::fs;
use std::rt::Files;
use std::thread::Threads;

/// How many cases a file has, how often one of them was run, and how many of these runs ended otherwise.
#[derive(Clone, Copy)]
struct Count {
    cases: u64,
    runs: u64,
    differing: u64,
}

// Runs a case with one value for `{each}`, and tells whether it ended otherwise.
fn run_with<R: Print + AllocGlobal + Threads + Sync>(
    rt: &R,
    file: &str,
    block: &Block<'_>,
    value: &str,
    earlier: &mut Earlier,
) -> Result<bool> {
    let alloc = rt.alloc();
    let case = case_of(alloc, block, value, earlier)?;
    let outcome = outcome_of(rt, alloc, &case)?;
    let differences = differences(alloc, &case, &outcome)?;
    for difference in &differences {
        println!(rt; "{file}: {} {value}: {difference}", block.title)?;
    }
    earlier.keep(alloc, block.title, outcome.out)?;
    Ok(!differences.is_empty())
}

// Runs a case once for each of its values.
fn run_case<R: Print + AllocGlobal + Threads + Sync>(
    rt: &R,
    file: &str,
    block: &Block<'_>,
    earlier: &mut Earlier,
    count: &mut Count,
) -> Result<()> {
    count.cases = count.cases.saturating_add(1);
    for value in block.values(rt.alloc())?.as_slice() {
        count.runs = count.runs.saturating_add(1);
        if run_with(rt, file, block, value, earlier)? {
            count.differing = count.differing.saturating_add(1);
        }
    }
    Ok(())
}

fn run_cases<R: Print + AllocGlobal + Threads + Sync>(
    rt: &R,
    file: &str,
    text: &str,
) -> Result<Count> {
    let mut earlier = Earlier::new(rt.alloc());
    let mut count = Count {
        cases: 0,
        runs: 0,
        differing: 0,
    };
    for block in blocks_of(rt.alloc(), text)?.as_slice() {
        run_case(rt, file, block, &mut earlier, &mut count)?;
    }
    Ok(count)
}

// Runs a file of cases, prints its line, and tells how many runs ended otherwise.
fn run_file<R: Print + Files + AllocGlobal + Threads + Sync>(rt: &R, file: &str) -> Result<u64> {
    let text = fs::read_to_string(rt, file).context(format_args!("reading {file}"))?;
    let count = run_cases(rt, file, text.as_str()).context(format_args!("in {file}"))?;
    println!(rt; "{file} {} cases {} runs", count.cases, count.runs)?;
    Ok(count.differing)
}

fn main(rt: HostRuntime) -> Result<()> {
    let list = fs::read_to_string(&rt, "list").context("reading list")?;
    let mut differing = 0u64;
    for file in list.as_str().split_whitespace() {
        differing = differing.saturating_add(run_file(&rt, file)?);
    }
    ensure!(differing == 0, "{differing} runs end otherwise");
    Ok(())
}
