//! Columns by their names.

ghost use Rattle.std.specs.Prelude.{◌≡◌, ◌++◌, ◌∷◌, [], IfOk, OnOk, IsTrue, None};
ghost use Rattle.table_meaning.specs.Schemas.{are_distinct, column_names};
ghost use Rattle.sql_rows_meaning.specs.Scopes.{kind_under};
ghost use Rattle.sql_bind_laws.specs.Places.{column_place};
ghost use Rattle.sql_bind_names.specs.Entries.{all_columns};
ghost use Rattle.sql_bind_names.specs.Found.{Finds};

use crate::found::Place;
use indexmap::IndexMap;
use rdf_meaning::Text;
use std::alloc::{AllocError, Global};
use std::marker::Model;
use table_meaning::{Column, Kind};

/// The columns of a table or of a step, whose names differ: contracts see a list.
#[derive(Drop)]
pub struct Columns {
    kinds: IndexMap<Text, Kind>,
}

impl Model for Columns {
    ghost use Rattle.std.specs.Prelude.{List};
    ghost use Rattle.table_meaning.specs.declared.schema.Column.{Column};
    ghost use Rattle.sql_bind_names.specs.Entries.{all_columns};

    ghost Value = { List Column };

    ghost view = { λ c. all_columns c.kinds.entries };
}

// Puts a column last whose name isn't there.
fn add_column(
    alloc: Global,
    kinds: &mut IndexMap<Text, Kind>,
    column: &Column,
) -> Result<(), AllocError>
    requires { kind_under (all_columns kinds.old.entries) column.now.name ≡ None }
    ensures { OnOk result (kinds.new.entries ≡ kinds.old.entries ++ (column.now.name, column.now.kind) ∷ []) }
{
    let Ok(_old) = kinds.insert(column.name.copy(alloc)?, column.kind) else {
        return Err(AllocError);
    };
    Ok(())
}

impl Columns {
    /// Columns whose names differ.
    #[tactic(auto, using(crate::proofs::Headings::absent_yet, crate::proofs::Headings::taken_next))]
    pub fn new(alloc: Global, columns: &[Column]) -> Result<Columns, AllocError>
        requires { IsTrue (are_distinct (column_names columns.now)) }
        ensures { IfOk result (λ all. all ≡ columns.now) }
    {
        let mut kinds = IndexMap::new(alloc);
        for at in 0..columns.len() {
            add_column(alloc, &mut kinds, &columns[at])?;
        }
        Ok(Columns { kinds })
    }

    /// The column of this name, of the source with this number.
    pub fn find(&self, source: usize, name: &Text) -> Option<Place>
        ensures { Finds (kind_under self.now name.now) (column_place source 0 self.now name.now) result }
    {
        match self.kinds.get_full(name) {
            Some((column, _, kind)) => Some(Place {
                kind: *kind,
                source,
                column,
            }),
            None => None,
        }
    }
}
