//! Rows under a schema.

ghost use Rattle.std.specs.Prelude.{◌≡◌, []};

use crate::cell::Row;
use crate::schema::Schema;
use std::alloc::Global;
use std::marker::Model;

/// A schema and rows of its kinds or nulls, one cell for each column.
#[derive(Debug, Drop)]
pub struct RowList {
    pub schema: Schema,
    pub rows: Vec<Row>,
}

impl Model for RowList {
    ghost use Rattle.std.specs.Prelude.{IsTrue};
    ghost use Rattle.table_meaning.specs.Tables.{RowTable, are_rows};
    ghost use Rattle.table_meaning.specs.Schemas.{is_schema};

    ghost Value = { RowTable };

    ghost view = { λ r. record { schema = r.schema; rows = r.rows.items } };

    ghost invariant = { λ r. IsTrue (is_schema r.schema) × IsTrue (are_rows r.schema r.rows.items) };
}

impl RowList {
    /// No rows, under a schema.
    pub fn new(alloc: Global, schema: Schema) -> RowList
        ensures { result ≡ record { schema = schema; rows = [] } }
    {
        let _ = schema.columns();
        RowList {
            schema,
            rows: Vec::new(alloc),
        }
    }
}
