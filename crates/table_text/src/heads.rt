//! Heads of tables.

ghost use Rattle.std.specs.Prelude.{◌≡◌, IfOk, option_map};
ghost use Rattle.table_meaning.specs.declared.kind.Kind.{Kind};
ghost use Rattle.table_text.specs.Reading.{name_of, column_as, column_of, columns_of, schema_of, head_of, fields_left};

use crate::fields::split_field;
use crate::names::are_distinct;
use rdf_meaning::{Text, text_of};
use rel_cells::{Column, Kind, Schema, is_name};
use std::alloc::{AllocError, Global};
use std::str;

/// A table's name and its columns.
#[derive(Drop)]
pub struct Head {
    pub name: Text,
    pub schema: Schema,
}

// The text of a name.
fn name_text(alloc: Global, bytes: &[u8]) -> Result<Option<Text>, AllocError>
    ensures { IfOk result (λ name. name ≡ name_of bytes.now) }
{
    if !is_name(bytes) {
        return Ok(None);
    }
    match str::from_utf8(bytes) {
        Ok(text) => Ok(Some(text_of(alloc, text)?)),
        Err(_) => Ok(None),
    }
}

// A name before the mark of a kind.
fn column_as(
    alloc: Global,
    mark: &[u8],
    kind: Kind,
    field: &[u8],
) -> Result<Option<Column>, AllocError>
    ensures { IfOk result (λ column. column ≡ column_as mark.now kind field.now) }
{
    let (front, back) = field.split_at(field.len().saturating_sub(mark.len()));
    if back != mark {
        return Ok(None);
    }
    let Some(name) = name_text(alloc, front)? else {
        return Ok(None);
    };
    Ok(Some(Column { name, kind }))
}

// A column's name and kind.
#[tactic(auto, unfolding(crate::specs::Reading::column_of))]
fn read_column(alloc: Global, field: &[u8]) -> Result<Option<Column>, AllocError>
    ensures { IfOk result (λ column. column ≡ column_of field.now) }
{
    match column_as(alloc, b":int", Kind::Int, field)? {
        Some(column) => Ok(Some(column)),
        None => column_as(alloc, b":text", Kind::Text, field),
    }
}

// The columns of all fields.
fn read_columns(alloc: Global, fields: Option<&[u8]>) -> Result<Option<Vec<Column>>, AllocError>
    ensures { IfOk result (λ columns. option_map (λ c. c.items) columns ≡ columns_of (fields_left fields.entry)) }
{
    let mut columns = Vec::new(alloc);
    let mut rest = fields;
    'fields: while let Some(line) = rest {
        let (field, after) = split_field(line);
        let Some(column) = read_column(alloc, field)? else {
            return Ok(None);
        };
        columns.push(column)?;
        rest = after;
    }
    Ok(Some(columns))
}

// The schema of all fields: at least one column, and distinct names.
fn read_schema(alloc: Global, fields: Option<&[u8]>) -> Result<Option<Schema>, AllocError>
    ensures { IfOk result (λ schema. schema ≡ schema_of (fields_left fields.entry)) }
{
    let Some(columns) = read_columns(alloc, fields)? else {
        return Ok(None);
    };
    if columns.is_empty() || !are_distinct(alloc, &columns)? {
        return Ok(None);
    }
    Ok(Some(Schema::new(columns)))
}

/// What follows `table` and a tab in the head of a table.
#[tactic(auto, unfolding(crate::specs::Reading::head_of))]
pub fn read_head(alloc: Global, rest: &[u8]) -> Result<Option<Head>, AllocError>
    ensures { IfOk result (λ head. option_map (λ h. (h.name, h.schema)) head ≡ head_of rest.now) }
{
    let (field, after) = split_field(rest);
    let Some(name) = name_text(alloc, field)? else {
        return Ok(None);
    };
    let Some(schema) = read_schema(alloc, after)? else {
        return Ok(None);
    };
    Ok(Some(Head { name, schema }))
}
