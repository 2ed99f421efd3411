//! The store that a layout gives for changes.

ghost use Rattle.std.specs.Prelude.{◌≡◌, ◌+◌, ◌<◌, ◌^◌, ◌++◌, IfOk, OnOk, IfErr, None, map, fold, length};
ghost use Rattle.bags.specs.Bag.{SameBag};
ghost use Rattle.line_change_meaning.specs.declared.change.Change.TheVariants.{Add};
ghost use Rattle.line_change_meaning.specs.Present.{present};
ghost use Rattle.layout_standing_meaning.specs.Stored.{IsStore, layout_of, stored_triples};
ghost use Rattle.run_meaning.specs.Limits.{passed_limit};
ghost use Rattle.layout_bulk_laws.specs.BulkStore.{terms_of, bulk_items, bulk_store};
ghost use Rattle.layout_placed_meaning.specs.Placed.{changed_in};
ghost use Rattle.layout_columns_meaning.specs.Layouts.{IsLayoutFor};
ghost use Rattle.rdf_triples.specs.Refusals.{Refuses};

use crate::changing::make;
use crate::refusal::load_refusal;
use line_change_meaning::Change;
use rdf_layout::{LayoutChoice, Store};
use rdf_meaning::Triple;
use rdf_triples::LoadRefusal;
use std::alloc::Global;
use std::thread::Threads;

// Loads the bulk at once. A bulk never runs out of list ids: it has few triples.
fn load_bulk<R: Threads + Sync>(
    rt: &R,
    alloc: Global,
    choice: &LayoutChoice,
    pieces: u32,
    bulk: &[Triple],
) -> Result<Store, LoadRefusal>
    ensures layout { IfOk result (λ s. IsLayoutFor choice.now (terms_of bulk.now) (bulk_items bulk.now) (layout_of s)) }
    ensures placed { IfOk result (λ s. s ≡ bulk_store (layout_of s) bulk.now) }
    ensures store { IfOk result IsStore }
    ensures triples { IfOk result (λ s. SameBag (stored_triples s) (present (map Add bulk.now))) }
    ensures within { OnOk result (passed_limit (map Add bulk.now) ≡ None) }
    ensures passed { IfErr result (λ e. Refuses e (passed_limit (map Add bulk.now))) }
{
    match Store::load(rt, alloc, bulk, choice, pieces) {
        Ok(store) => Ok(store),
        Err(refusal) => Err(load_refusal(refusal)),
    }
}

/// Loads the bulk at once, and makes the later changes one by one.
pub(crate) fn place<R: Threads + Sync>(
    rt: &R,
    alloc: Global,
    choice: &LayoutChoice,
    pieces: u32,
    bulk: &[Triple],
    later: &[Change],
) -> Result<Store, LoadRefusal>
    requires { length bulk.now + length later.now < 2 ^ 62 }
    ensures layout { IfOk result (λ s. IsLayoutFor choice.now (terms_of bulk.now) (bulk_items bulk.now) (layout_of s)) }
    ensures placed { IfOk result (λ s. s ≡ fold changed_in (bulk_store (layout_of s) bulk.now) later.now) }
    ensures store { IfOk result IsStore }
    ensures triples { IfOk result (λ s. SameBag (stored_triples s) (present (map Add bulk.now ++ later.now))) }
    ensures within { OnOk result (passed_limit (map Add bulk.now ++ later.now) ≡ None) }
    ensures passed { IfErr result (λ e. Refuses e (passed_limit (map Add bulk.now ++ later.now))) }
{
    let mut store = load_bulk(rt, alloc, choice, pieces, bulk)?;
    for change in later {
        make(&mut store, alloc, change)?;
    }
    Ok(store)
}
