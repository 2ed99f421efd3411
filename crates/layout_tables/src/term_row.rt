//! The rows of the table of terms.

ghost use Rattle.std.specs.Prelude.{◌≡◌, unwrap_or, slice_get, IfOk};
ghost use Rattle.table_meaning.specs.declared.cell.Cell.TheVariants.{Null};
ghost use Rattle.rel_cells.specs.Seen.{seen_cell};
ghost use Rattle.layout_standing_meaning.specs.Dictionary.{entries_of};
ghost use Rattle.layout_standing_meaning.specs.Contents.{number_cell, term_cells};

use rdf_meaning::{Term, TermId};
use rdf_terms::{class_of, number_of};
use rel_cells::CellView;
use std::alloc::{AllocError, Global};
use std::marker::Model;
use term_book::TermBook;

/// A term that is lent, with its id, class and value: it is ranked once, and not at each read of a cell.
#[derive(Drop)]
pub(crate) struct TermRow<'a> {
    id: u32,
    term: &'a Term,
    class: u8,
    number: Option<i128>,
}

impl<'a> Model for TermRow<'a> {
    ghost use Rattle.std.specs.Prelude.{◌≡◌};
    ghost use Rattle.rdf_value_meaning.specs.Values.{class_of, value_of};
    ghost use Rattle.layout_standing_meaning.specs.Dictionary.{Entry};

    ghost Value = { Entry };

    ghost view = { λ r. record { id = r.id; term = r.term.now } };

    ghost invariant = { λ r. (r.class ≡ class_of r.term.now) × (r.number ≡ value_of r.term.now) };
}

/// A number, if there is one.
fn number_cell<'a>(number: Option<i128>) -> CellView<'a>
    ensures { seen_cell result ≡ number_cell number }
{
    match number {
        Some(number) => CellView::Int(number),
        None => CellView::Null,
    }
}

impl<'a> TermRow<'a> {
    fn of(id: u32, term: &'a Term) -> TermRow<'a>
        ensures { result ≡ record { id = id; term = term.now } }
    {
        TermRow {
            id,
            term,
            class: class_of(term),
            number: number_of(term),
        }
    }

    /// The cell at a place.
    pub(crate) fn cell(&self, col: usize) -> CellView<'_>
        ensures { seen_cell result ≡ unwrap_or (slice_get (term_cells self.now) col) Null }
    {
        let term = self.term;
        match col {
            0 => CellView::Int(i128::from(self.id)),
            1 => CellView::Int(i128::from(self.class)),
            2 => number_cell(self.number),
            3 => CellView::Text(&term.text),
            4 => CellView::Text(&term.aux),
            _ => CellView::Null,
        }
    }
}

/// The rows of the terms of a dictionary, by rising id.
pub(crate) fn term_rows(alloc: Global, book: &TermBook) -> Result<Vec<TermRow<'_>>, AllocError>
    ensures { IfOk result (λ rows. rows.items ≡ entries_of book.now) }
{
    let mut rows = Vec::with_capacity(alloc, book.count() as usize)?;
    for at in 0..book.count() {
        let id = at + 1;
        rows.push(TermRow::of(id, book.term(TermId::new(id))))?;
    }
    Ok(rows)
}
