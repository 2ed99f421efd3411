//! The schemas of tables.

ghost use Rattle.std.specs.Prelude.{◌≡◌, IfOk};
ghost use Rattle.sql_rows_meaning.specs.Scopes.{schemas_in};

use rel_cells::TableSet;
use sql_rows_meaning::NamedSchema;
use std::alloc::{AllocError, Global};

/// The schema of each table, under its name.
#[tactic(auto, using(crate::proofs::SchemaSteps::schema_pushed, crate::proofs::SchemaSteps::none_left))]
pub(crate) fn schemas_of<T: TableSet>(
    alloc: Global,
    tables: &T,
) -> Result<Vec<NamedSchema>, AllocError>
    ensures { IfOk result (λ schemas. schemas.items ≡ schemas_in (T.named_tables tables.now)) }
{
    let mut schemas = Vec::new(alloc);
    for t in 0..tables.tables() {
        let name = tables.name(t).copy(alloc)?;
        let schema = tables.schema(t).copy(alloc)?;
        schemas.push(NamedSchema { name, schema })?;
    }
    Ok(schemas)
}
