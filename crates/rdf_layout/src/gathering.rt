//! Triples whose items are gathered, to be placed at once.

ghost use Rattle.std.specs.Prelude.{◌≡◌, ◌≢◌, ◌≤◌, [], length, IfErr, OnOk, None, Some};
ghost use Rattle.layout_standing_meaning.specs.Dictionary.{IsTriple};
ghost use Rattle.layout_standing_meaning.specs.Stored.{StoreOf};
ghost use Rattle.layout_standing_meaning.specs.Changes.{with_terms};
ghost use Rattle.shredder.specs.Items.{item_of};
ghost use Rattle.layout_sides.specs.Items.{item_of as item_of_ids};
ghost use Rattle.rdf_layout.specs.Refused.{Refuses};
ghost use Rattle.rdf_layout.specs.Bulk.{refusal_from};
ghost use Rattle.rdf_layout.specs.Gathered.{AreItemsOf, Gathers, HasSpace, with_found};

use crate::item_set::ItemSet;
use crate::noted::noted;
use crate::refusal::{MOST_TRIPLES, StoreRefusal};
use layout_ids::has_forms;
use layout_sides::IdTriple;
use rdf_meaning::Triple;
use shredder::Placed;
use std::alloc::Global;
use term_book::TermBook;

/// The item of a triple on the direct side.
fn placed_of(ids: IdTriple) -> Placed
    ensures { item_of result ≡ item_of_ids ids }
{
    Placed {
        entity: ids.subject.number(),
        pred: ids.predicate.number(),
        value: ids.object.number(),
    }
}

/// Gathers the item of one more triple. What it says of a store holds of each store with these terms and items.
fn gather(
    book: &mut TermBook,
    found: &mut ItemSet,
    alloc: Global,
    t: &Triple,
) -> Result<(), StoreRefusal>
    requires few { length book.old ≤ 4000000 }
    ensures book { OnOk result (book.new ≡ with_terms book.old t.now) }
    ensures found { OnOk result ((s : StoreOf) → AreItemsOf s book.old found.old → found.new ≡ with_found s t.now found.old) }
    ensures room { OnOk result ((s : StoreOf) → AreItemsOf s book.old found.old → HasSpace s t.now) }
    ensures refused { IfErr result (λ e. (s : StoreOf) → AreItemsOf s book.old found.old → Refuses e s t.now) }
    ensures few { length book.new ≤ 4000000 }
    ensures form { IsTriple t.now }
{
    has_forms(t);
    let full = found.count() >= MOST_TRIPLES;
    let ids = noted(book, alloc, t, full)?;
    let item = placed_of(ids);
    if found.has(item) {
        return Ok(());
    }
    if full {
        return Err(StoreRefusal::Triples);
    }
    found.push(item)?;
    Ok(())
}

/// Gathers the items of triples into a dictionary and a set that are empty.
pub(crate) fn gather_all(
    book: &mut TermBook,
    found: &mut ItemSet,
    alloc: Global,
    triples: &[Triple],
) -> Result<(), StoreRefusal>
    requires book { book.old ≡ [] }
    requires found { found.old ≡ [] }
    ensures gathered { OnOk result (Gathers triples.now book.new found.new) }
    ensures good { OnOk result (refusal_from [] triples.now ≡ None) }
    ensures refused { IfErr result (λ e. e ≢ StoreRefusal.NoMemory → refusal_from [] triples.now ≡ Some e) }
    ensures few { length book.new ≤ 4000000 }
{
    for t in triples {
        gather(book, found, alloc, t)?;
    }
    Ok(())
}
