//! The laws that other crates may call upon.

ghost use Rattle.table_text_laws.specs.RoundTrip.{WrittenTablesAreRead, WrittenTablesAreReadBack};

use table_text::texts_have_one_outcome;

/// The text of tables, the line that ends it and whatever follows read as these tables, and the SQL
/// begins behind that line.
pub fn written_tables_are_read()
    ensures { WrittenTablesAreRead }
{}

/// Whatever the reader may answer by its contract for what the writer appends for tables, the line that ends them and whatever
/// follows, is these tables and the place behind that line, or want of memory.
pub fn written_tables_are_read_back()
    ensures { WrittenTablesAreReadBack }
{
    texts_have_one_outcome();
}
