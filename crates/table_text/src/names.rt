//! Names, each once.

ghost use Rattle.std.specs.Prelude.{◌≡◌, ◌++◌, ◌∷◌, [], not, if◌then◌else◌, IfOk, OnErr};
ghost use Rattle.std.specs.List.{list_any};
ghost use Rattle.std.specs.Str.{bytes_eq};
ghost use Rattle.table_meaning.specs.Schemas.{are_distinct, column_names};

use indexmap::IndexSet;
use rdf_meaning::Text;
use rel_cells::Column;
use std::alloc::{AllocError, Global};
use std::marker::Model;

/// Names that have come, in their order.
#[derive(Drop)]
pub struct Names {
    names: IndexSet<Text>,
}

impl Model for Names {
    ghost use Rattle.std.specs.Prelude.{List, ℕ};

    ghost Value = { List (List ℕ) };

    ghost view = { λ n. n.names.keys };
}

impl Names {
    pub fn new(alloc: Global) -> Names
        ensures { result ≡ [] }
    {
        Names {
            names: IndexSet::new(alloc),
        }
    }

    /// Notes a name, and tells whether it is new.
    pub fn add(&mut self, alloc: Global, name: &Text) -> Result<bool, AllocError>
        ensures new { IfOk result (λ new. new ≡ not (list_any (bytes_eq name.now) self.old)) }
        ensures noted { IfOk result (λ new. self.new ≡ (if new then self.old ++ name.now ∷ [] else self.old)) }
    {
        Ok(self.names.insert(name.copy(alloc)?)?)
    }
}

/// Whether no two columns have one name.
pub fn are_distinct(alloc: Global, columns: &[Column]) -> Result<bool, AllocError>
    ensures { IfOk result (λ distinct. distinct ≡ are_distinct (column_names columns.now)) }
{
    let mut names = Names::new(alloc);
    for column in columns {
        if !names.add(alloc, &column.name)? {
            return Ok(false);
        }
    }
    Ok(true)
}
