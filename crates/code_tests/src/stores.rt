//! Steps of a store. They have no contracts, so that no proof carries what a store holds.

use colouring_file::{ColourLine, read_colouring};
use layout_text_laws::standing_tables_are_plain;
use nt_lines::{Change, LineRefusal, read_changes};
use pred_columns::ColumnRefusal;
use rdf_layout::{ColourWay, LayoutChoice, Put, Store, StoreRefusal, Took};
use rdf_terms::Triple;
use std::alloc::{AllocError, Global};
use std::test::Fail;
use std::thread::Threads;
use table_text::write_tables;

fn lines_of(alloc: Global, lines: &str) -> Result<Vec<ColourLine>, LineRefusal> {
    read_colouring(alloc, lines.as_bytes(), 32, 32)
}

// A way of colouring by its name, or by the lines of a colouring file for 32 columns.
fn way_of(alloc: Global, way: &str) -> Result<ColourWay, LineRefusal> {
    match way {
        "greedy" => Ok(ColourWay::Greedy),
        "hashed" => Ok(ColourWay::HashOnly),
        lines => Ok(ColourWay::Given(lines_of(alloc, lines)?)),
    }
}

fn made(
    alloc: Global,
    direct: u32,
    reverse: u32,
    hashes: u32,
    way: ColourWay,
) -> Result<LayoutChoice, ColumnRefusal> {
    LayoutChoice::new(alloc, direct, reverse, hashes, way)
}

/// Columns of both sides, by a text `DIRECT REVERSE HASHES` and a way of colouring, or why there are none.
pub(crate) fn chosen(
    alloc: Global,
    numbers: &str,
    way: &str,
) -> Result<Result<LayoutChoice, ColumnRefusal>, Fail> {
    let way = way_of(alloc, way)?;
    let mut numbers = numbers.split(' ');
    let direct: u32 = numbers.next().unwrap_or("").parse()?;
    let reverse: u32 = numbers.next().unwrap_or("").parse()?;
    let hashes: u32 = numbers.next().unwrap_or("").parse()?;
    Ok(made(alloc, direct, reverse, hashes, way))
}

fn changes_of(alloc: Global, data: &str) -> Result<Vec<Change>, LineRefusal> {
    read_changes(alloc, data.as_bytes(), 0)
}

fn push_added(triples: &mut Vec<Triple>, alloc: Global, change: &Change) -> Result<(), AllocError> {
    if let Change::Add(triple) = change {
        triples.push(triple.copy(alloc)?)?;
    }
    Ok(())
}

// The triples of data lines.
fn added(alloc: Global, changes: &[Change]) -> Result<Vec<Triple>, AllocError> {
    let mut triples = Vec::new(alloc);
    for change in changes {
        push_added(&mut triples, alloc, change)?;
    }
    Ok(triples)
}

fn load<R: Threads + Sync>(
    rt: &R,
    alloc: Global,
    triples: &[Triple],
    choice: &LayoutChoice,
) -> Result<Store, StoreRefusal> {
    Store::load(rt, alloc, triples, choice, 1)
}

// A store of the triples of data lines.
fn load_lines<R: Threads + Sync>(
    rt: &R,
    alloc: Global,
    data: &str,
    numbers: &str,
    way: &str,
) -> Result<Store, Fail> {
    let changes = changes_of(alloc, data)?;
    let triples = added(alloc, changes.as_slice())?;
    let choice = chosen(alloc, numbers, way)??;
    Ok(load(rt, alloc, triples.as_slice(), &choice)?)
}

// Whether a change changes what is stored.
fn make(alloc: Global, store: &mut Store, change: &Change) -> Result<bool, StoreRefusal> {
    match change {
        Change::Add(triple) => Ok(store.insert(alloc, triple)? == Put::Added),
        Change::Delete(triple) => Ok(store.delete(triple) == Took::Removed),
    }
}

// Makes changes, and tells whether the last of them changes what is stored.
fn make_all(alloc: Global, store: &mut Store, changes: &[Change]) -> Result<bool, StoreRefusal> {
    let mut last = false;
    for change in changes {
        last = make(alloc, store, change)?;
    }
    Ok(last)
}

/// Makes the changes of data lines, and tells whether the last of them changes what is stored.
pub(crate) fn change_by(
    alloc: Global,
    store: &mut Store,
    data: &str,
) -> Result<Result<bool, StoreRefusal>, Fail> {
    let changes = changes_of(alloc, data)?;
    Ok(make_all(alloc, store, changes.as_slice()))
}

/// A store of the triples of data lines, after the changes of later ones.
pub(crate) fn store_of<R: Threads + Sync>(
    rt: &R,
    alloc: Global,
    bulk: &str,
    later: &str,
    numbers: &str,
    way: &str,
) -> Result<Store, Fail> {
    let mut store = load_lines(rt, alloc, bulk, numbers, way)?;
    change_by(alloc, &mut store, later)??;
    Ok(store)
}

/// The tables of a store as text.
pub(crate) fn tables_text(alloc: Global, store: &Store) -> Result<Vec<u8>, AllocError> {
    // That the tables can be written, and how many columns there are at most, is told by calls.
    standing_tables_are_plain();
    let facts = store.facts(alloc, &[])?;
    let _direct = facts.direct.count();
    let _reverse = facts.reverse.count();
    let tables = store.tables(alloc)?;
    let mut text = Vec::new(alloc);
    write_tables(&tables, &mut text)?;
    Ok(text)
}
