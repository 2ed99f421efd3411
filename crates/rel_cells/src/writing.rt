//! How cells are written.
#![tactic(auto, using(crate::specs::Fronts::kept_same, crate::specs::Fronts::kept_append, crate::specs::Fronts::kept_on))]

ghost use Rattle.std.specs.Prelude.{◌≡◌, ◌++◌, IsTrue, OnOk, OnErr};
ghost use Rattle.table_meaning.specs.Ints.{int_text};
ghost use Rattle.table_meaning.specs.CellText.{cell_text};
ghost use Rattle.table_meaning.specs.CellText.{is_held_cell};
ghost use Rattle.rel_cells.specs.Fronts.{KeepsFront};
ghost use Rattle.rel_cells.specs.Seen.{seen_cell};

use crate::view::CellView;
use itoa::Buffer;
use rdf_spelling::write_text;
use std::alloc::AllocError;

fn write_int(number: i128, into: &mut Vec<u8>) -> Result<(), AllocError>
    ensures ok { OnOk result (into.new.items ≡ into.old.items ++ int_text number) }
    ensures kept { KeepsFront into.old.items into.new.items }
{
    let mut buffer = Buffer::new();
    let digits = buffer.format(number);
    into.extend_from_slice(digits.as_bytes())
}

/// Appends a cell as tables and answers have it, or a front of it where there is no memory. A cell is one that a text can spell:
/// its number has 128 bits, its text is UTF-8.
pub fn write_cell(cell: CellView<'_>, onto: &mut Vec<u8>) -> Result<(), AllocError>
    ensures ok { OnOk result (onto.new.items ≡ onto.old.items ++ cell_text (seen_cell cell.entry)) }
    ensures kept { KeepsFront onto.old.items onto.new.items }
    ensures held { IsTrue (is_held_cell (seen_cell cell.entry)) }
{
    match cell {
        CellView::Null => onto.push(b'.')?,
        CellView::Int(number) => write_int(number, onto)?,
        CellView::Text(text) => write_text(text.bytes(), onto)?,
        CellView::Truth(true) => onto.push(b'T')?,
        CellView::Truth(false) => onto.push(b'F')?,
    }
    Ok(())
}
