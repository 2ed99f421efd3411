//! The predicates of entities.

ghost use Rattle.std.specs.Prelude.{◌≡◌, ℕ, map, IfOk};
ghost use Rattle.std.specs.List.{list_any, flat_map};
ghost use Rattle.std.specs.List.Sorted.{IsStrictlySortedBy};
ghost use Rattle.std.specs.Ordering.{nat_cmp};
ghost use Rattle.pred_colour_meaning.specs.Interference.{has};
ghost use Rattle.pred_colour.specs.Entities.{preds_of};

use crate::graph::EntityPreds;
use std::alloc::{AllocError, Global};

/// The predicates of one entity after the other.
fn all_preds(alloc: Global, entities: &[EntityPreds]) -> Result<Vec<u32>, AllocError>
    ensures { IfOk result (λ preds. preds.items ≡ flat_map preds_of entities.now) }
{
    let mut preds = Vec::new(alloc);
    for entity in entities {
        preds.extend_from_slice(entity.preds.as_slice())?;
    }
    Ok(preds)
}

/// The predicates of entities, each once, rising.
pub(crate) fn predicates(alloc: Global, entities: &[EntityPreds]) -> Result<Vec<u32>, AllocError>
    ensures rising { IfOk result (λ preds. IsStrictlySortedBy nat_cmp preds.items) }
    ensures all { IfOk result (λ preds. (p : ℕ) → has p preds.items ≡ list_any (has p) (map preds_of entities.now)) }
{
    let mut preds = all_preds(alloc, entities)?;
    preds.sort_unstable();
    preds.dedup();
    Ok(preds)
}
