//! The indexes that the joins of a SELECT want.

ghost use Rattle.std.specs.Prelude.{◌≡◌};

use crate::keys::key_of;
use rel_cells::TableSet;
use sql_bind_meaning::BoundCore;
use sql_engine_values::Relations;
use std::alloc::{AllocError, Global};

/// Makes the indexes by which the joins of a SELECT find their rows, beside those that are kept already. No relation changes.
pub fn keep_indexes<T: TableSet>(
    alloc: Global,
    core: &BoundCore,
    relations: &mut Relations<'_, T>,
) -> Result<(), AllocError>
    ensures { relations.new ≡ relations.old }
{
    let mut new = if core.from.is_some() { 1 } else { 0 };
    for join in core.joins.as_slice() {
        if let Some(key) = key_of(&join.on, new) {
            relations.keep_index(alloc, join.relation, key.column)?;
        }
        new += 1;
    }
    Ok(())
}
