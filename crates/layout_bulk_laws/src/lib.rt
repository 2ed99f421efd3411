//! Laws of bulks: the sides of a bulk are the sides of a store.
#![tactic(auto)]

ghost use Rattle.layout_bulk_laws.specs.BulkLaws.{BulksAreStores, BulksHoldTheirItems, BulksAreInOrder};

/// The sides of a bulk of a store's items, each item once, are the sides of a store of the same triples,
/// and their lists stand in order.
pub fn bulks_are_stores()
    ensures store { BulksAreStores }
    ensures triples { BulksHoldTheirItems }
    ensures in_order { BulksAreInOrder }
{}
