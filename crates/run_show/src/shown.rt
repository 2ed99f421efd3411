//! Tables and a script as one text.

ghost use Rattle.std.specs.Prelude.{◌≡◌, ◌≤◌, IfOk, IsTrue};
ghost use Rattle.layout_standing_meaning.specs.Stored.{layout_of, tables_of};
ghost use Rattle.sparql_query_meaning.specs.Fragment.{OfFragment};
ghost use Rattle.sql_meaning.specs.Scripts.{is_writable};
ghost use Rattle.run_show.specs.Shown.{shown_text, IsStoreShown};

use layout_text_laws::standing_tables_are_plain;
use query_meaning::Query;
use rdf_layout::Store;
use run_compiled::query_script;
use sql_meaning::Script;
use sql_text_writer::write_sql;
use std::alloc::{AllocError, Global};
use table_text::write_tables;

// The tables of a store, the line that ends them, and a script with a line feed behind it.
fn text_of(alloc: Global, store: &Store, script: &Script) -> Result<Vec<u8>, AllocError>
    requires writable { IsTrue (is_writable script.now) }
    requires direct { (layout_of store.now).direct.count ≤ 32 }
    requires reverse { (layout_of store.now).reverse.count ≤ 32 }
    ensures { IfOk result (λ text. text.items ≡ shown_text (tables_of store.now) script.now) }
{
    standing_tables_are_plain();
    let tables = store.tables(alloc)?;
    let mut text = Vec::new(alloc);
    write_tables(&tables, &mut text)?;
    text.extend_from_slice(b"-- sql\n")?;
    write_sql(script, &mut text)?;
    text.push(b'\n')?;
    Ok(text)
}

/// The text of a store's tables and of the script of a query over them.
///
/// # Errors
///
/// Want of memory.
pub(crate) fn shown_over(alloc: Global, store: &Store, query: &Query) -> Result<Vec<u8>, AllocError>
    requires fragment { OfFragment query.now }
    requires direct { (layout_of store.now).direct.count ≤ 32 }
    requires reverse { (layout_of store.now).reverse.count ≤ 32 }
    ensures { IfOk result (λ text. IsStoreShown store.now query.now text.items) }
{
    let script = query_script(alloc, store, query)?;
    text_of(alloc, store, &script)
}
