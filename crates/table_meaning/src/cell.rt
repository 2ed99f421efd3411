//! Cells and rows.

ghost use Rattle.std.specs.Prelude.{◌≡◌, IfOk};

use rdf_meaning::Text;
use std::alloc::{AllocError, Global};
use std::marker::Model;

/// What a place of a row holds.
#[derive(Debug, Drop)]
pub enum Cell {
    Null,
    Int(i128),
    Text(Text),
    Truth(bool),
}

impl Cell {
    /// An equal cell.
    pub fn copy(&self, alloc: Global) -> Result<Cell, AllocError>
        ensures { IfOk result (λ cell. cell ≡ self.now) }
    {
        Ok(match self {
            Cell::Null => Cell::Null,
            Cell::Int(number) => Cell::Int(*number),
            Cell::Text(text) => Cell::Text(text.copy(alloc)?),
            Cell::Truth(truth) => Cell::Truth(*truth),
        })
    }
}

/// The cells of a row, in the order of the columns.
#[derive(Debug, Drop)]
pub struct Row {
    pub cells: Vec<Cell>,
}

impl Model for Row {
    ghost use Rattle.std.specs.Prelude.{List};
    ghost use Rattle.table_meaning.specs.declared.cell.Cell.{Cell};

    ghost Value = { List Cell };

    ghost view = { λ r. r.cells.items };
}
