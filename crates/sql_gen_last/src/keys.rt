//! The keys of the last SELECT.

ghost use Rattle.std.specs.Prelude.{◌≡◌, ◌++◌, IfOk, OnOk};
ghost use Rattle.std.specs.List.{flat_map};
ghost use Rattle.query_eval_meaning.specs.Answer.{all_keys};
ghost use Rattle.sql_meaning.specs.declared.expression.SqlExpr.TheVariants as sql;
ghost use Rattle.sql_gen_term_laws.specs.TermTable.{term_alias};
ghost use Rattle.sql_gen_last_laws.specs.LastSelect.{class_key, four_keys, once, variables_of_keys};

use query_meaning::{Key, VarId};
use rdf_meaning::text_of;
use sql_gen_steps::{has, term_alias};
use sql_meaning::{SqlExpr, SqlKey};
use sqlite_items::Items;
use std::alloc::{AllocError, Global};

/// The asked keys, and then the shown variables, rising.
pub(crate) fn all_keys(alloc: Global, keys: &[Key], shown: &[VarId]) -> Result<Vec<Key>, AllocError>
    ensures { IfOk result (λ all. all.items ≡ all_keys keys.now shown.now) }
{
    let mut all = Vec::from_slice(alloc, keys)?;
    for variable in shown {
        all.push(Key {
            var: *variable,
            down: false,
        })?;
    }
    Ok(all)
}

fn variables_of_keys(alloc: Global, keys: &[Key]) -> Result<Vec<VarId>, AllocError>
    ensures { IfOk result (λ all. all.items ≡ variables_of_keys keys.now) }
{
    let mut all = Vec::with_capacity(alloc, keys.len())?;
    for key in keys {
        all.push(key.var)?;
    }
    Ok(all)
}

// Each variable once, at its last place.
fn once(alloc: Global, variables: &[VarId]) -> Result<Vec<VarId>, AllocError>
    ensures { IfOk result (λ kept. kept.items ≡ once variables.now) }
{
    let mut kept = Vec::new(alloc);
    let mut rest = variables;
    'variables: while let Some((first, after)) = rest.split_first() {
        if !has(after, *first) {
            kept.push(*first)?;
        }
        rest = after;
    }
    Ok(kept)
}

/// The variables of the keys, each once.
pub(crate) fn variables(alloc: Global, keys: &[Key]) -> Result<Vec<VarId>, AllocError>
    ensures { IfOk result (λ found. found.items ≡ once (variables_of_keys keys.now)) }
{
    let all = variables_of_keys(alloc, keys)?;
    once(alloc, &all)
}

/// A column of the term of a variable.
pub(crate) fn term_cell(alloc: Global, v: VarId, column: &str) -> Result<SqlExpr, AllocError>
    ensures { IfOk result (λ e. e ≡ sql.Name (term_alias v) column.now) }
{
    let alias = term_alias(alloc, v)?;
    Ok(SqlExpr::Name(alias, text_of(alloc, column)?))
}

// The class, or 0 where the variable may be unbound, so that it stands first.
fn class_key(alloc: Global, certain: &[VarId], v: VarId) -> Result<SqlExpr, AllocError>
    ensures { IfOk result (λ e. e ≡ class_key certain.now v) }
{
    let class = term_cell(alloc, v, "cls")?;
    if has(certain, v) {
        return Ok(class);
    }
    let mut parts = Items::new(alloc);
    parts.push(class)?;
    parts.push(SqlExpr::Int(0))?;
    Ok(SqlExpr::First(parts))
}

// Class, value, text, and tag or datatype of the key's term, all in its direction.
fn push_keys(
    alloc: Global,
    certain: &[VarId],
    key: &Key,
    keys: &mut Items<SqlKey>,
) -> Result<(), AllocError>
    ensures { OnOk result (keys.new ≡ keys.old ++ four_keys certain.now key.now) }
{
    let (v, down) = (key.var, key.down);
    let class = class_key(alloc, certain, v)?;
    keys.push(SqlKey { expr: class, down })?;
    let number = term_cell(alloc, v, "num")?;
    keys.push(SqlKey { expr: number, down })?;
    let text = term_cell(alloc, v, "txt")?;
    keys.push(SqlKey { expr: text, down })?;
    let aux = term_cell(alloc, v, "aux")?;
    keys.push(SqlKey { expr: aux, down })?;
    Ok(())
}

/// The keys of the SELECT.
pub(crate) fn sql_keys(
    alloc: Global,
    certain: &[VarId],
    keys: &[Key],
) -> Result<Items<SqlKey>, AllocError>
    ensures { IfOk result (λ ks. ks ≡ flat_map (four_keys certain.now) keys.now) }
{
    let mut made = Items::new(alloc);
    for key in keys {
        push_keys(alloc, certain, key, &mut made)?;
    }
    Ok(made)
}
