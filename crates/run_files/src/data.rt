//! Data files.

ghost use Rattle.std.specs.Prelude.{◌≡◌, ◌≤◌, ◌+◌, ◌∷◌, IfOk, IfErr, List, ℕ, Ok, Err, length};
ghost use Rattle.run_meaning.specs.Limits.{most_file, most_data_files};
ghost use Rattle.run_files_meaning.specs.Files.{judged_data, data_behind, data_read};
ghost use Rattle.run_files_meaning.specs.Refusal.{RefusedAs};
ghost use Rattle.run_files_meaning.specs.Intake.{Leads};
ghost use Rattle.run_files_meaning.specs.Taken.{Stops, Takes};

use crate::text::read_text;
use line_change_meaning::Change;
use nt_lines::{LineRefusal, read_changes};
use rdf_meaning::Text;
use run_meaning::{MOST_FILE, Status, Which};
use std::alloc::Global;
use store_io::Shelf;

// The changes of the text of the data file of this number.
fn judge_data(alloc: Global, text: &[u8], file: u32) -> Result<Vec<Change>, Status>
    ensures ok { IfOk result (λ changes. judged_data file text.now ≡ Ok changes.items) }
    ensures few { IfOk result (λ changes. length changes.items ≤ length text.now + 1) }
    ensures err { IfErr result (λ status. RefusedAs status (λ s. judged_data file text.now ≡ Err s)) }
{
    match read_changes(alloc, text, file) {
        Ok(changes) => Ok(changes),
        Err(LineRefusal::NoMemory) => Err(Status::NoMemory),
        Err(LineRefusal::Bad { line }) => Err(Status::BadData { file, line }),
        Err(LineRefusal::TooLong { .. }) => Err(Status::Limit { which: Which::Line }),
    }
}

// One more data file, of this number, behind others that left this many bytes of the limit: its changes
// are appended, and what it leaves is answered.
fn read_more<F: Shelf>(
    alloc: Global,
    name: &str,
    file: u32,
    left: usize,
    changes: &mut Vec<Change>,
    shelf: &mut F,
) -> Result<usize, Status>
    ensures taken { (names : List (List ℕ)) → IfOk result (λ rest. Leads (F.content shelf.old) (data_behind file left changes.old.items (name.now ∷ names)) (data_behind (file + 1) rest changes.new.items names)) }
    ensures few { IfOk result (λ rest. length changes.new.items + rest ≤ length changes.old.items + left + 1) }
    ensures stops { (names : List (List ℕ)) → IfErr result (λ status. Stops status (data_behind file left changes.old.items (name.now ∷ names)) (F.content shelf.old) (F.faults shelf.old) (F.faults shelf.new)) }
    ensures content { (other : List ℕ) → F.content shelf.new other ≡ F.content shelf.old other }
    ensures counts { (other : List ℕ) → F.faults shelf.old other ≤ F.faults shelf.new other }
{
    let text = read_text(alloc, name, left, Which::File, shelf)?;
    let mut more = judge_data(alloc, &text, file)?;
    changes.append(&mut more)?;
    Ok(left - text.len())
}

/// The changes of the data files of these names, numbered from 0, in order. All together have at most
/// `MOST_FILE` bytes: a file with which they have more is refused as too long.
pub fn read_data<F: Shelf>(
    alloc: Global,
    names: &[Text],
    shelf: &mut F,
) -> Result<Vec<Change>, Status>
    requires { length names.now ≤ most_data_files }
    ensures taken { Takes (λ changes. changes.items) result (data_read names.now) (F.content shelf.old) (F.faults shelf.old) (F.faults shelf.new) }
    ensures few { IfOk result (λ changes. length changes.items ≤ most_file + most_data_files) }
    ensures content { (other : List ℕ) → F.content shelf.new other ≡ F.content shelf.old other }
    ensures counts { (other : List ℕ) → F.faults shelf.old other ≤ F.faults shelf.new other }
{
    let mut changes = Vec::new(alloc);
    let mut left = MOST_FILE;
    let mut file: u32 = 0;
    'files: for name in names {
        left = read_more(alloc, name.as_str(), file, left, &mut changes, shelf)?;
        file += 1;
    }
    Ok(changes)
}
