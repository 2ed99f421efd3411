//! The text of one file.

ghost use Rattle.std.specs.Prelude.{◌≡◌, ◌≤◌, IfOk, List, ℕ, length};
ghost use Rattle.run_files_meaning.specs.Files.{text_read};
ghost use Rattle.run_files_meaning.specs.Taken.{Takes};

use rdf_meaning::text_of;
use run_meaning::{Status, Which};
use std::alloc::Global;
use store_io::{Shelf, ShelfError, Taken};

/// The whole file of this name, which has at most `most` bytes; `which` is the limit that a longer one
/// passes.
pub fn read_text<F: Shelf>(
    alloc: Global,
    name: &str,
    most: usize,
    which: Which,
    shelf: &mut F,
) -> Result<Vec<u8>, Status>
    ensures taken { Takes (λ text. text.items) result (text_read most which name.now) (F.content shelf.old) (F.faults shelf.old) (F.faults shelf.new) }
    ensures few { IfOk result (λ text. length text.items ≤ most) }
    ensures content { (other : List ℕ) → F.content shelf.new other ≡ F.content shelf.old other }
    ensures counts { (other : List ℕ) → F.faults shelf.old other ≤ F.faults shelf.new other }
{
    let mut text = Vec::new(alloc);
    match shelf.read_whole(alloc, name, most, &mut text) {
        Ok(Taken::All) => Ok(text),
        Ok(Taken::Longer) => Err(Status::Limit { which }),
        Err(ShelfError::NoMemory) => Err(Status::NoMemory),
        Err(ShelfError::Failed) => Err(Status::ReadFault {
            name: text_of(alloc, name)?,
        }),
    }
}
