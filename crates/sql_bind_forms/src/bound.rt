//! A script that was bound.

ghost use Rattle.std.specs.Prelude.{◌≡◌};
ghost use Rattle.sql_bind_forms.specs.Forms.{HasRowsOfItsColumns};

use sql_bind_meaning::BoundScript;
use sql_rows_meaning::NamedSchema;
use std::marker::Model;
use table_meaning::Schema;

/// A script whose names are places: its placed form, the columns of its rows, and the schemas of the tables over which it
/// was bound.
#[derive(Drop)]
pub struct Bound {
    placed: BoundScript,
    schema: Schema,
    tables: Vec<NamedSchema>,
}

impl Model for Bound {
    ghost use Rattle.std.specs.Coded.{codes};
    ghost use Rattle.sql_bind_meaning.specs.contracts.expression.BoundExpr as e;
    ghost use Rattle.sql_bind_meaning.specs.contracts.expression.BoundBranch as b;
    ghost use Rattle.sql_bind_forms.specs.Forms.{BoundForm, HasRowsOfItsColumns};

    ghost Value = { BoundForm };

    ghost coded = { Prim.hlevel (codes, e.the_row.coded, b.the_row.coded) };

    ghost view = { λ b. record { placed = b.placed; columns = b.schema; tables = b.tables.items } };

    ghost invariant = { λ b. HasRowsOfItsColumns (record { placed = b.placed; columns = b.schema; tables = b.tables.items }) };
}

impl Bound {
    /// A placed form whose rows have the kinds of the schema's columns, over all tables with these schemas.
    pub fn new(placed: BoundScript, schema: Schema, tables: Vec<NamedSchema>) -> Bound
        requires { HasRowsOfItsColumns (record { placed = placed; columns = schema; tables = tables.items }) }
        ensures { result ≡ record { placed = placed; columns = schema; tables = tables.items } }
    {
        Bound {
            placed,
            schema,
            tables,
        }
    }

    /// The script with places for its names.
    pub fn placed(&self) -> &BoundScript
        ensures { result.now ≡ self.now.placed }
    {
        &self.placed
    }

    /// The columns of the script's rows.
    pub fn schema(&self) -> &Schema
        ensures value { result.now ≡ self.now.columns }
        ensures rows { HasRowsOfItsColumns self.now }
    {
        &self.schema
    }

    /// The schemas of the tables over which the script was bound.
    pub fn tables(&self) -> &[NamedSchema]
        ensures { result.now ≡ self.now.tables }
    {
        self.tables.as_slice()
    }
}
