//! A kept index, found again.

ghost use Rattle.std.specs.Prelude.{List, IfSome, All};
ghost use Rattle.table_meaning.specs.declared.cell.Cell.{Cell};
ghost use Rattle.sql_bind_meaning.specs.Sources.{relation_rows};
ghost use Rattle.sql_index.specs.Found.{IsIndexOf};
ghost use Rattle.sql_engine_values.specs.Kept.{IsKept};

use crate::kept::KeptIndex;
use sql_index::Index;

/// The index of a column of a relation, where one is kept.
pub(crate) fn find(indexes: &[KeptIndex], relation: usize, column: usize) -> Option<&Index>
    ensures { (relations : List (List (List Cell))) → All (IsKept relations) indexes.now → IfSome result (λ index. IsIndexOf index.now (relation_rows relations relation) column) }
{
    for kept in indexes {
        if kept.relation == relation && kept.column == column {
            return Some(&kept.index);
        }
    }
    None
}
