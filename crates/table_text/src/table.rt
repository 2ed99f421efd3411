//! A table that is being read.

use rdf_meaning::Text;
use rel_cells::{Row, Schema};
use std::marker::Model;

/// A table, whose rows go on.
#[derive(Drop)]
pub struct Table {
    pub name: Text,
    pub schema: Schema,
    pub rows: Vec<Row>,
}

impl Model for Table {
    ghost use Rattle.table_meaning.specs.Tables.{NamedTable};

    ghost Value = { NamedTable };

    ghost view = { λ t. record { name = t.name; schema = t.schema; rows = t.rows.items } };
}
