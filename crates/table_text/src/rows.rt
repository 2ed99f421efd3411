//! Rows.

ghost use Rattle.std.specs.Prelude.{◌≡◌, IfOk};
ghost use Rattle.table_text.specs.Reading.{cell_of, cells_of, fields_of};

use crate::fields::split_field;
use crate::quoted::read_text;
use rel_cells::{Cell, Column, Kind, Row, read_int};
use std::alloc::{AllocError, Global};

// A cell of this kind, or a null.
#[tactic(auto, unfolding(crate::specs::Reading::cell_of))]
fn read_cell(alloc: Global, kind: Kind, field: &[u8]) -> Result<Option<Cell>, AllocError>
    ensures { IfOk result (λ cell. cell ≡ cell_of kind field.now) }
{
    if field == b".".as_slice() {
        return Ok(Some(Cell::Null));
    }
    match kind {
        Kind::Int => match read_int(field) {
            Some(number) => Ok(Some(Cell::Int(number))),
            None => Ok(None),
        },
        Kind::Text => match read_text(alloc, field)? {
            Some(text) => Ok(Some(Cell::Text(text))),
            None => Ok(None),
        },
        Kind::Truth => Ok(None),
    }
}

/// The row of a line: a cell for each column.
pub fn read_row(alloc: Global, columns: &[Column], line: &[u8]) -> Result<Option<Row>, AllocError>
    ensures { IfOk result (λ row. row ≡ cells_of columns.now (fields_of line.now)) }
{
    let mut cells = Vec::with_capacity(alloc, columns.len())?;
    let mut rest = Some(line);
    for column in columns {
        let Some(fields) = rest else {
            return Ok(None);
        };
        let (field, after) = split_field(fields);
        let Some(cell) = read_cell(alloc, column.kind, field)? else {
            return Ok(None);
        };
        cells.push(cell)?;
        rest = after;
    }
    if rest.is_some() {
        return Ok(None);
    }
    Ok(Some(Row { cells }))
}
