//! Single changes of a store, within the limits.

ghost use Rattle.std.specs.Prelude.{◌≡◌, OnOk, IfErr, None};
ghost use Rattle.line_change_meaning.specs.declared.change.Change.TheVariants.{Add};
ghost use Rattle.layout_standing_meaning.specs.Stored.{IsStore};
ghost use Rattle.layout_standing_meaning.specs.Changes.{stored_in};
ghost use Rattle.layout_placed_meaning.specs.Placed.{changed_in};
ghost use Rattle.rdf_triples.specs.Refusals.{Refuses};
ghost use Rattle.run_store.specs.Limited.{LeavesIds, HoldsAfter, limit_at};

use crate::refusal::load_refusal;
use line_change_meaning::Change;
use rdf_layout::Store;
use rdf_meaning::Triple;
use rdf_triples::LoadRefusal;
use std::alloc::Global;

// Puts a triple in. Where list ids are left on both sides, it needs none that there isn't.
fn add(store: &mut Store, alloc: Global, t: &Triple) -> Result<(), LoadRefusal>
    requires { LeavesIds store.old }
    ensures stored { OnOk result (store.new ≡ stored_in store.old t.now) }
    ensures store { OnOk result (IsStore store.new) }
    ensures holds { OnOk result (HoldsAfter store.old (Add t.now) store.new) }
    ensures within { OnOk result (limit_at store.old (Add t.now) ≡ None) }
    ensures passed { IfErr result (λ e. Refuses e (limit_at store.old (Add t.now))) }
{
    match store.insert(alloc, t) {
        Ok(_) => Ok(()),
        Err(refusal) => Err(load_refusal(refusal)),
    }
}

/// Makes a change.
pub(crate) fn make(store: &mut Store, alloc: Global, change: &Change) -> Result<(), LoadRefusal>
    requires { LeavesIds store.old }
    ensures changed { OnOk result (store.new ≡ changed_in store.old change.now) }
    ensures store { OnOk result (IsStore store.new) }
    ensures holds { OnOk result (HoldsAfter store.old change.now store.new) }
    ensures within { OnOk result (limit_at store.old change.now ≡ None) }
    ensures passed { IfErr result (λ e. Refuses e (limit_at store.old change.now)) }
{
    match change {
        Change::Add(triple) => add(store, alloc, triple),
        Change::Delete(triple) => {
            let _ = store.delete(triple);
            Ok(())
        }
    }
}
