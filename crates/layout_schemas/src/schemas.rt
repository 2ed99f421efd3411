//! The columns of the five tables.

ghost use Rattle.std.specs.Prelude.{◌≡◌, ◌≤◌, ◌++◌, ◌+◌, ◌∷◌, [], IfOk, OnOk};
ghost use Rattle.std.specs.Fmt.{decimal};
ghost use Rattle.layout_standing_meaning.specs.Schemas.{pair_columns, primary_schema, list_schema, term_schema};

use rdf_meaning::{Text, text_of};
use rel_cells::{Column, Kind, Schema};
use std::alloc::{AllocError, Global};

/// Puts a column behind others.
fn push(columns: &mut Vec<Column>, name: Text, kind: Kind) -> Result<(), AllocError>
    ensures { OnOk result (columns.new.items ≡ columns.old.items ++ record { name = name; kind = kind } ∷ []) }
{
    columns.push(Column { name, kind })?;
    Ok(())
}

/// A word with a number behind it.
fn numbered(alloc: Global, word: &str, number: u32) -> Result<Text, AllocError>
    ensures { IfOk result (λ text. text ≡ word.now ++ decimal number) }
{
    let text = format!(in alloc; "{word}{number}")?;
    text_of(alloc, text.as_str())
}

/// Puts the two columns of a pair behind others.
fn push_pair(columns: &mut Vec<Column>, alloc: Global, number: u32) -> Result<(), AllocError>
    ensures { OnOk result (columns.new.items ≡ columns.old.items ++ pair_columns 1 number) }
{
    push(columns, numbered(alloc, "pred", number)?, Kind::Int)?;
    push(columns, numbered(alloc, "val", number)?, Kind::Int)
}

/// The columns of a primary table with this many pairs.
fn primary_columns(alloc: Global, count: u32) -> Result<Vec<Column>, AllocError>
    requires { count ≤ 32 }
    ensures { IfOk result (λ columns. columns.items ≡ primary_schema count) }
{
    let mut columns = Vec::new(alloc);
    push(&mut columns, text_of(alloc, "entry")?, Kind::Int)?;
    push(&mut columns, text_of(alloc, "spill")?, Kind::Int)?;
    for at in 0..count {
        push_pair(&mut columns, alloc, at + 1)?;
    }
    Ok(columns)
}

/// The schema of a primary table with this many pairs.
pub fn primary_schema(alloc: Global, count: u32) -> Result<Schema, AllocError>
    requires { count ≤ 32 }
    ensures { IfOk result (λ schema. schema ≡ primary_schema count) }
{
    let columns = primary_columns(alloc, count)?;
    Ok(Schema::new(columns))
}

/// The schema of a table of lists.
pub fn list_schema(alloc: Global) -> Result<Schema, AllocError>
    ensures { IfOk result (λ schema. schema ≡ list_schema) }
{
    let mut columns = Vec::new(alloc);
    push(&mut columns, text_of(alloc, "lid")?, Kind::Int)?;
    push(&mut columns, text_of(alloc, "elm")?, Kind::Int)?;
    Ok(Schema::new(columns))
}

/// The schema of the table of terms.
pub fn term_schema(alloc: Global) -> Result<Schema, AllocError>
    ensures { IfOk result (λ schema. schema ≡ term_schema) }
{
    let mut columns = Vec::new(alloc);
    push(&mut columns, text_of(alloc, "id")?, Kind::Int)?;
    push(&mut columns, text_of(alloc, "cls")?, Kind::Int)?;
    push(&mut columns, text_of(alloc, "num")?, Kind::Int)?;
    push(&mut columns, text_of(alloc, "txt")?, Kind::Text)?;
    push(&mut columns, text_of(alloc, "aux")?, Kind::Text)?;
    Ok(Schema::new(columns))
}
