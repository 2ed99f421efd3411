//! The five tables together.

ghost use Rattle.std.specs.Prelude.{◌≡◌, ◌≤◌, ◌∷◌, ◌++◌, [], IfOk, OnOk, codes, map};
ghost use Rattle.std.specs.List.{flat_map};
ghost use Rattle.std.specs.List.Sorted.{IsStrictlySortedBy};
ghost use Rattle.std.specs.Map.{keys_of};
ghost use Rattle.std.specs.Ordering.{nat_cmp};
ghost use Rattle.layout_meaning.specs.Rows.{numbered_rows};
ghost use Rattle.layout_standing_meaning.specs.Dictionary.{entries_of};
ghost use Rattle.layout_standing_meaning.specs.Schemas.{primary_schema, list_schema, term_schema, table_of};
ghost use Rattle.layout_standing_meaning.specs.Contents.{row_cells, element_cells, term_cells, contents_of};
ghost use Rattle.layout_standing_meaning.specs.Stored.{IsStore, tables_of, layout_of};
ghost use Rattle.layout_standing_meaning.specs.Changes.{store_of};
ghost use Rattle.layout_list_laws.specs.InOrder.{AreInOrder, AreRising};
ghost use Rattle.primary_rows.specs.Views.{seen_row};
ghost use Rattle.layout_elements.specs.ElementRows.{element_row};
ghost use Rattle.layout_tables.specs.RowOrder.{StandInOrder};

use crate::table::{Table, TableRows};
use crate::term_row::term_rows;
use layout_elements::{Element, elements};
use layout_schemas::{list_schema, primary_schema, term_schema};
use layout_sides::TripleSides;
use primary_rows::{RowView, Side};
use rdf_meaning::{Text, text_of};
use rel_cells::{CellView, Schema, TableSet};
use std::alloc::{AllocError, Global};
use std::marker::Model;
use term_book::TermBook;

/// The tables DPH, DS, RPH, RS and TERM of a store: rows by rising entity, then by number; lists by falling
/// id; terms by rising id. A cell is found by its place without a walk.
#[derive(Drop)]
pub struct Tables<'a> {
    tables: Vec<Table<'a>>,
}

impl<'a> Model for Tables<'a> {
    ghost use Rattle.std.specs.Prelude.{List, IsTrue};
    ghost use Rattle.table_meaning.specs.Tables.{NamedTable, is_table_set};

    ghost Value = { List NamedTable };

    ghost view = { λ m. m.tables.items };

    ghost invariant = { λ m. IsTrue (is_table_set m.tables.items) };
}

impl<'a> TableSet for Tables<'a> {
    ghost named_tables = { λ tables. tables };

    fn tables(&self) -> usize {
        self.tables.len()
    }

    fn name(&self, t: usize) -> &Text {
        let table = &self.tables[t];
        &table.name
    }

    fn schema(&self, t: usize) -> &Schema {
        let table = &self.tables[t];
        &table.schema
    }

    fn rows(&self, t: usize) -> usize {
        self.tables[t].count()
    }

    fn cell_at(&self, t: usize, row: usize, col: usize) -> CellView<'_> {
        self.tables[t].cell(row, col)
    }
}

/// The primary table of a side.
fn primary_table<'a>(
    alloc: Global,
    name: &str,
    columns: u32,
    rows: Vec<RowView<'a>>,
) -> Result<Table<'a>, AllocError>
    requires { columns ≤ 32 }
    ensures { IfOk result (λ table. table ≡ table_of name.now (primary_schema columns) (map row_cells (map seen_row rows.entry.items))) }
{
    Ok(Table {
        name: text_of(alloc, name)?,
        schema: primary_schema(alloc, columns)?,
        rows: TableRows::Primary(rows),
    })
}

/// The table of the lists of a side.
fn list_table<'a>(
    alloc: Global,
    name: &str,
    elements: Vec<Element>,
) -> Result<Table<'a>, AllocError>
    ensures { IfOk result (λ table. table ≡ table_of name.now list_schema (map element_row elements.items)) }
{
    Ok(Table {
        name: text_of(alloc, name)?,
        schema: list_schema(alloc)?,
        rows: TableRows::Lists(elements),
    })
}

/// Puts the two tables of a side behind others.
fn push_side<'a>(
    tables: &mut Vec<Table<'a>>,
    alloc: Global,
    side: &'a Side,
    primary: &str,
    lists: &str,
) -> Result<(), AllocError>
    requires { AreRising side.now.state.lists }
    ensures tables { OnOk result (tables.new.items ≡ tables.old.items ++ table_of primary.now (primary_schema side.now.columns.count) (map row_cells (numbered_rows side.now.state.entities)) ∷ table_of lists.now list_schema (flat_map element_cells side.now.state.lists) ∷ []) }
    ensures rising { IsStrictlySortedBy nat_cmp (keys_of side.now.state.entities) }
    ensures few { OnOk result (side.now.columns.count ≤ 32) }
{
    let rows = side.rows(alloc)?;
    let elements = elements(alloc, side, rows.as_slice())?;
    let columns = side.columns().count();
    tables.push(primary_table(alloc, primary, columns, rows)?)?;
    tables.push(list_table(alloc, lists, elements)?)?;
    Ok(())
}

/// The table of terms.
fn term_table(alloc: Global, book: &TermBook) -> Result<Table<'_>, AllocError>
    ensures { IfOk result (λ table. table ≡ table_of (codes "TERM") term_schema (map term_cells (entries_of book.now))) }
{
    Ok(Table {
        name: text_of(alloc, "TERM")?,
        schema: term_schema(alloc)?,
        rows: TableRows::Terms(term_rows(alloc, book)?),
    })
}

/// The tables of a dictionary and two sides, whose lists are in order. Memory goes with the rows, the elements
/// of lists and the terms, whose texts are lent.
pub fn tables_of<'a>(
    alloc: Global,
    book: &'a TermBook,
    sides: &'a TripleSides,
) -> Result<Tables<'a>, AllocError>
    requires store { IsStore (store_of book.now sides.now) }
    requires order { AreInOrder sides.now }
    ensures tables { IfOk result (λ tables. tables ≡ tables_of (store_of book.now sides.now)) }
    ensures order { IfOk result (λ tables. StandInOrder (layout_of (store_of book.now sides.now)) (contents_of sides.now.direct.state sides.now.reverse.state book.now) tables) }
{
    let mut tables = Vec::new(alloc);
    push_side(&mut tables, alloc, sides.direct(), "DPH", "DS")?;
    push_side(&mut tables, alloc, sides.reverse(), "RPH", "RS")?;
    tables.push(term_table(alloc, book)?)?;
    Ok(Tables { tables })
}

// Takes what pieces may read at the same time.
fn share<T: Sync>(_value: &T) {}

/// The tables may be read by several threads at the same time.
pub fn share_tables(tables: &Tables<'_>) {
    share(tables)
}
