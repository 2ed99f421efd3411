//! A store that is full.

use crate::stores::{change_by, store_of};
use rdf_layout::{Store, StoreRefusal};
use std::alloc::Global;
use std::test::Fail;
use std::thread::Threads;

fn put_numbered(
    alloc: Global,
    store: &mut Store,
    number: u32,
) -> Result<Result<bool, StoreRefusal>, Fail> {
    let data = format!(in alloc; "<u:s{number}> <u:p> <u:o{number}> .\n")?;
    change_by(alloc, store, data.as_str())
}

fn fill<R: Threads + Sync>(rt: &R, alloc: Global, count: u32) -> Result<Store, Fail> {
    let mut store = store_of(rt, alloc, "", "", "8 8 2", "hashed")?;
    for number in 0..count {
        put_numbered(alloc, &mut store, number)??;
    }
    Ok(store)
}

// A million triples fit, and one more doesn't.
#[test]
fn a_million_triples_are_stored(rt: HostRuntime) -> Result<(), Fail> {
    let alloc = rt.alloc();
    let mut store = fill(&rt, alloc, 1_000_000)?;
    for (number, want) in [(1_000_000, Err(StoreRefusal::Triples)), (5, Ok(false))] {
        assert_eq!(rt; put_numbered(alloc, &mut store, number)?, want);
        assert_eq!(rt; store.stats().triples, 1_000_000);
    }
    Ok(())
}
