//! Columns and schemas.

ghost use Rattle.std.specs.Prelude.{◌≡◌, IfOk, IsTrue};
ghost use Rattle.table_meaning.specs.Schemas.{is_schema};

use crate::kind::Kind;
use rdf_meaning::Text;
use std::alloc::{AllocError, Global};
use std::marker::Model;

/// A column's name, and what its cells are besides nulls.
#[derive(Debug, Drop)]
pub struct Column {
    pub name: Text,
    pub kind: Kind,
}

impl Column {
    /// An equal column.
    pub fn copy(&self, alloc: Global) -> Result<Column, AllocError>
        ensures { IfOk result (λ column. column ≡ self.now) }
    {
        Ok(Column {
            name: self.name.copy(alloc)?,
            kind: self.kind,
        })
    }
}

/// The columns of a table, of which there is at least one, with distinct names.
#[derive(Debug, Drop)]
pub struct Schema {
    columns: Vec<Column>,
}

impl Model for Schema {
    ghost use Rattle.std.specs.Prelude.{List, IsTrue};
    ghost use Rattle.table_meaning.specs.declared.schema.Column.{Column};
    ghost use Rattle.table_meaning.specs.Schemas.{is_schema};

    ghost Value = { List Column };

    ghost view = { λ s. s.columns.items };

    ghost invariant = { λ s. IsTrue (is_schema s.columns.items) };
}

impl Schema {
    /// The schema of these columns.
    pub fn new(columns: Vec<Column>) -> Schema
        requires { IsTrue (is_schema columns.items) }
        ensures { result ≡ columns.items }
    {
        Schema { columns }
    }

    /// Its columns, in order.
    pub fn columns(&self) -> &[Column]
        ensures value { result.now ≡ self.now }
        ensures form { IsTrue (is_schema self.now) }
    {
        self.columns.as_slice()
    }

    /// An equal schema.
    pub fn copy(&self, alloc: Global) -> Result<Schema, AllocError>
        ensures { IfOk result (λ schema. schema ≡ self.now) }
    {
        let mut columns = Vec::with_capacity(alloc, self.columns.len())?;
        for column in &self.columns {
            columns.push(column.copy(alloc)?)?;
        }
        Ok(Schema { columns })
    }
}
