//! The sources of a SELECT.

ghost use Rattle.std.specs.Prelude.{◌≡◌, ◌++◌, ◌∷◌, [], false, None, OnOk};
ghost use Rattle.std.specs.List.{list_any, IsDistinct};
ghost use Rattle.std.specs.Map.{lookup, keys_of};
ghost use Rattle.std.specs.Str.{bytes_eq};
ghost use Rattle.sql_bind_laws.specs.Places.{seen_of, places_of};
ghost use Rattle.sql_bind_names.specs.Found.{Finds};
ghost use Rattle.sql_bind_names.specs.Newest.{scope_in};

use crate::columns::Columns;
use crate::found::Place;
use indexmap::IndexMap;
use rdf_meaning::Text;
use std::alloc::{AllocError, Global};
use std::marker::Model;

/// The sources of a SELECT so far, whose aliases differ: contracts see a list of aliases and columns, the last source first.
#[derive(Drop)]
pub struct Sources<'a> {
    columns: IndexMap<Text, &'a Columns>,
}

impl<'a> Model for Sources<'a> {
    ghost use Rattle.std.specs.Prelude.{List};
    ghost use Rattle.std.specs.List.{IsDistinct};
    ghost use Rattle.std.specs.Map.{keys_of};
    ghost use Rattle.std.specs.Str.{bytes_eq};
    ghost use Rattle.sql_rows_meaning.specs.declared.schema.NamedSchema.{NamedSchema};
    ghost use Rattle.sql_bind_names.specs.Newest.{newest_first};

    ghost Value = { List NamedSchema };

    ghost view = { λ s. newest_first s.columns.entries };

    ghost invariant = { λ s. IsDistinct bytes_eq (keys_of s.columns.entries) };
}

// Puts a source last, under an alias that isn't there.
fn add_new<'a>(
    alloc: Global,
    sources: &mut IndexMap<Text, &'a Columns>,
    alias: &Text,
    columns: &'a Columns,
) -> Result<(), AllocError>
    requires new { lookup (bytes_eq alias.now) sources.old.entries ≡ None }
    requires distinct { IsDistinct bytes_eq (keys_of sources.old.entries) }
    ensures entries { OnOk result (sources.new.entries ≡ sources.old.entries ++ (alias.now, columns.entry) ∷ []) }
    ensures distinct { IsDistinct bytes_eq (keys_of sources.new.entries) }
{
    let Ok(_old) = sources.insert(alias.copy(alloc)?, columns) else {
        return Err(AllocError);
    };
    Ok(())
}

impl<'a> Sources<'a> {
    /// No source.
    pub fn new(alloc: Global) -> Sources<'a>
        ensures { result ≡ [] }
    {
        Sources {
            columns: IndexMap::new(alloc),
        }
    }

    /// Whether a source has this alias.
    #[tactic(auto, using(crate::proofs::Sighted::taken_told))]
    pub fn has(&self, alias: &Text) -> bool
        ensures { result ≡ list_any (bytes_eq alias.now) (seen_of self.now).aliases }
    {
        self.columns.contains_key(alias)
    }

    /// Adds a source under an alias that no source has.
    #[tactic(auto, using(crate::proofs::Sighted::not_taken, crate::proofs::Sighted::newest_added))]
    pub fn add(
        &mut self,
        alloc: Global,
        alias: &Text,
        columns: &'a Columns,
    ) -> Result<(), AllocError>
        requires { list_any (bytes_eq alias.now) (seen_of self.old).aliases ≡ false }
        ensures { OnOk result (self.new ≡ record { name = alias.now; schema = columns.now } ∷ self.old) }
    {
        add_new(alloc, &mut self.columns, alias, columns)
    }

    /// The column under an alias.
    #[tactic(auto, using(crate::proofs::Sighted::seen_under, crate::proofs::Sighted::seen_nowhere))]
    pub fn find(&self, alias: &Text, column: &Text) -> Option<Place>
        ensures { Finds (scope_in self.now alias.now column.now) (places_of self.now alias.now column.now) result }
    {
        match self.columns.get_full(alias) {
            Some((source, _, columns)) => columns.find(source, column),
            None => None,
        }
    }
}
