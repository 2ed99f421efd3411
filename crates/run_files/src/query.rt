//! A query file, behind the files that it is asked over.

ghost use Rattle.std.specs.Prelude.{◌≡◌, ◌≤◌, ◌+◌, IfOk, List, ℕ, length, map};
ghost use Rattle.colouring_file_meaning.specs.ColourLines.{AreFit};
ghost use Rattle.colouring_file.specs.Colours.{colour_of};
ghost use Rattle.run_meaning.specs.Limits.{most_file, most_data_files};
ghost use Rattle.run_files_meaning.specs.Files.{query_files, query_read};
ghost use Rattle.run_files_meaning.specs.Taken.{Takes};

use crate::colouring::read_colours;
use crate::data::read_data;
use crate::text::read_text;
use colouring_file::ColourLine;
use line_change_meaning::Change;
use rdf_meaning::Text;
use run_meaning::{MOST_QUERY, Options, Status, Which};
use std::alloc::Global;
use store_io::Shelf;

/// What the files of a command with a query give.
#[derive(Drop)]
pub struct QueryFiles {
    /// The lines of the colouring file, or none.
    pub lines: Vec<ColourLine>,
    /// The changes of the data files, in order.
    pub changes: Vec<Change>,
    /// The text of the query file.
    pub text: Vec<u8>,
}

/// Reads the colouring file, where options name one, then the data files and the query file, each judged
/// before the next.
pub fn read_query_files<F: Shelf>(
    alloc: Global,
    options: &Options,
    data_names: &[Text],
    query_name: &str,
    shelf: &mut F,
) -> Result<QueryFiles, Status>
    requires { length data_names.now ≤ most_data_files }
    ensures taken { Takes (λ files. query_files (map colour_of files.lines.items) files.changes.items files.text.items) result (query_read options.now data_names.now query_name.now) (F.content shelf.old) (F.faults shelf.old) (F.faults shelf.new) }
    ensures fit { IfOk result (λ files. AreFit options.now.columns options.now.reverse (map colour_of files.lines.items)) }
    ensures few { IfOk result (λ files. length files.changes.items ≤ most_file + most_data_files) }
    ensures content { (other : List ℕ) → F.content shelf.new other ≡ F.content shelf.old other }
    ensures counts { (other : List ℕ) → F.faults shelf.old other ≤ F.faults shelf.new other }
{
    let lines = read_colours(alloc, options, shelf)?;
    let changes = read_data(alloc, data_names, shelf)?;
    let text = read_text(alloc, query_name, MOST_QUERY, Which::Query, shelf)?;
    Ok(QueryFiles {
        lines,
        changes,
        text,
    })
}
