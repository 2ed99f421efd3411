//! Aliases and their new names.

ghost use Rattle.std.specs.Prelude.{◌≡◌, IfOk};
ghost use Rattle.sql_alias_laws.specs.Aliases.{realias_source, realias_from};
ghost use Rattle.sql_alias_renaming.specs.NewNames.{new_name};

use rdf_meaning::Text;
use sql_meaning::Source;
use std::alloc::{AllocError, Global};

/// An alias and its new name.
#[derive(Debug, Drop)]
pub struct AliasPair {
    pub old: Text,
    pub new: Text,
}

pub(crate) fn new_alias(
    alloc: Global,
    names: &[AliasPair],
    alias: &Text,
) -> Result<Text, AllocError>
    ensures { IfOk result (λ x. x ≡ new_name names.now alias.now) }
{
    for pair in names {
        if pair.old.as_str() == alias.as_str() {
            return pair.new.copy(alloc);
        }
    }
    alias.copy(alloc)
}

pub(crate) fn renamed_source(
    alloc: Global,
    names: &[AliasPair],
    source: &Source,
) -> Result<Source, AllocError>
    ensures { IfOk result (λ x. x ≡ realias_source (new_name names.now) source.now) }
{
    Ok(Source {
        table: source.table.copy(alloc)?,
        alias: new_alias(alloc, names, &source.alias)?,
    })
}

pub(crate) fn renamed_from(
    alloc: Global,
    names: &[AliasPair],
    from: &Option<Source>,
) -> Result<Option<Source>, AllocError>
    ensures { IfOk result (λ x. x ≡ realias_from (new_name names.now) from.now) }
{
    match from {
        Some(source) => Ok(Some(renamed_source(alloc, names, source)?)),
        None => Ok(None),
    }
}
