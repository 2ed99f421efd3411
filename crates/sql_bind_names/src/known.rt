//! Tables and steps by their names.

ghost use Rattle.std.specs.Prelude.{◌≡◌, ◌++◌, ◌∷◌, [], map, IfOk, OnOk, IsTrue, None, Some, MatchOption};
ghost use Rattle.table_meaning.specs.Schemas.{are_distinct, column_names};
ghost use Rattle.sql_rows_meaning.specs.declared.schema.NamedSchema.{NamedSchema};
ghost use Rattle.sql_rows_meaning.specs.Scopes.{schemas_of};
ghost use Rattle.sql_bind_laws.specs.Places.{number_of};
ghost use Rattle.sql_bind_names.specs.Entries.{all_named};

use crate::columns::Columns;
use indexmap::IndexMap;
use rdf_meaning::Text;
use sql_rows_meaning::NamedSchema;
use std::alloc::{AllocError, Global};
use std::marker::Model;
use table_meaning::Column;

/// A table or a step: its number, from 0, and its columns.
#[derive(Clone, Copy)]
pub struct Relation<'a> {
    pub number: usize,
    pub columns: &'a Columns,
}

/// The tables and, behind them, the steps so far: contracts see a list of names and columns.
#[derive(Drop)]
pub struct Known {
    relations: IndexMap<Text, Columns>,
}

impl Model for Known {
    ghost use Rattle.std.specs.Prelude.{List};
    ghost use Rattle.sql_rows_meaning.specs.declared.schema.NamedSchema.{NamedSchema};
    ghost use Rattle.sql_bind_names.specs.Entries.{all_named};

    ghost Value = { List NamedSchema };

    ghost view = { λ k. all_named k.relations.entries };
}

// Puts a name last that isn't there.
fn add_new(
    alloc: Global,
    relations: &mut IndexMap<Text, Columns>,
    name: &Text,
    columns: Columns,
) -> Result<(), AllocError>
    requires { schemas_of (all_named relations.old.entries) name.now ≡ None }
    ensures { OnOk result (relations.new.entries ≡ relations.old.entries ++ (name.now, columns) ∷ []) }
{
    let Ok(_old) = relations.insert(name.copy(alloc)?, columns) else {
        return Err(AllocError);
    };
    Ok(())
}

impl Known {
    /// The given tables, whose names differ.
    #[tactic(auto, using(crate::proofs::Lookups::absent_yet, crate::proofs::Lookups::taken_next, crate::proofs::Lookups::names_differ))]
    pub fn new(alloc: Global, schemas: &[NamedSchema]) -> Result<Known, AllocError>
        requires { IsTrue (are_distinct (map (λ (s : NamedSchema). s.name) schemas.now)) }
        ensures { IfOk result (λ known. known ≡ schemas.now) }
    {
        let mut relations = IndexMap::new(alloc);
        for at in 0..schemas.len() {
            let given = &schemas[at];
            let columns = Columns::new(alloc, given.schema.columns())?;
            add_new(alloc, &mut relations, &given.name, columns)?;
        }
        Ok(Known { relations })
    }

    /// The table or step of this name; None exactly where there is none.
    pub fn find(&self, name: &Text) -> Option<Relation<'_>>
        ensures { MatchOption result (schemas_of self.now name.now ≡ None) (λ r. (schemas_of self.now name.now ≡ Some r.columns.now) × (r.number ≡ number_of self.now name.now)) }
    {
        match self.relations.get_full(name) {
            Some((number, _, found)) => Some(Relation {
                number,
                columns: found,
            }),
            None => None,
        }
    }

    /// Adds a step, whose name isn't there, behind the others.
    #[tactic(auto, using(crate::proofs::Lookups::one_more))]
    pub fn add(&mut self, alloc: Global, name: &Text, columns: &[Column]) -> Result<(), AllocError>
        requires new { schemas_of self.old name.now ≡ None }
        requires names { IsTrue (are_distinct (column_names columns.now)) }
        ensures { OnOk result (self.new ≡ self.old ++ record { name = name.now; schema = columns.now } ∷ []) }
    {
        let columns = Columns::new(alloc, columns)?;
        add_new(alloc, &mut self.relations, name, columns)
    }
}
