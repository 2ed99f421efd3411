//! The colouring file.

ghost use Rattle.std.specs.Prelude.{◌≡◌, ◌≤◌, IfOk, IfErr, List, ℕ, Ok, Err, map};
ghost use Rattle.colouring_file_meaning.specs.ColourLines.{AreFit};
ghost use Rattle.colouring_file.specs.Colours.{colour_of};
ghost use Rattle.run_meaning.specs.declared.command.Layout.TheVariants as layout;
ghost use Rattle.run_files_meaning.specs.Files.{judged_colours, colours_by, colours_read};
ghost use Rattle.run_files_meaning.specs.Refusal.{RefusedAs};
ghost use Rattle.run_files_meaning.specs.Taken.{Takes};

use crate::text::read_text;
use colouring_file::{ColourLine, read_colouring};
use nt_lines::LineRefusal;
use run_meaning::{Layout, MOST_FILE, Options, Status, Which};
use std::alloc::Global;
use store_io::Shelf;

// The colours of a text, for sides with these counts of columns.
fn judge_colours(
    alloc: Global,
    text: &[u8],
    direct: u32,
    reverse: u32,
) -> Result<Vec<ColourLine>, Status>
    ensures ok { IfOk result (λ lines. judged_colours direct reverse text.now ≡ Ok (map colour_of lines.items)) }
    ensures fit { IfOk result (λ lines. AreFit direct reverse (map colour_of lines.items)) }
    ensures err { IfErr result (λ status. RefusedAs status (λ s. judged_colours direct reverse text.now ≡ Err s)) }
{
    match read_colouring(alloc, text, direct, reverse) {
        Ok(lines) => Ok(lines),
        Err(LineRefusal::NoMemory) => Err(Status::NoMemory),
        Err(LineRefusal::Bad { line }) => Err(Status::BadColouring { line }),
        Err(LineRefusal::TooLong { .. }) => Err(Status::Limit { which: Which::Line }),
    }
}

// The colours of a colouring file.
fn read_colouring_file<F: Shelf>(
    alloc: Global,
    name: &str,
    direct: u32,
    reverse: u32,
    shelf: &mut F,
) -> Result<Vec<ColourLine>, Status>
    ensures taken { Takes (λ lines. map colour_of lines.items) result (colours_by direct reverse (layout.File name.now)) (F.content shelf.old) (F.faults shelf.old) (F.faults shelf.new) }
    ensures fit { IfOk result (λ lines. AreFit direct reverse (map colour_of lines.items)) }
    ensures content { (other : List ℕ) → F.content shelf.new other ≡ F.content shelf.old other }
    ensures counts { (other : List ℕ) → F.faults shelf.old other ≤ F.faults shelf.new other }
{
    let text = read_text(alloc, name, MOST_FILE, Which::File, shelf)?;
    judge_colours(alloc, &text, direct, reverse)
}

/// The colours of the colouring file that options name, or none where they name none. `fit` is what
/// columns of both sides ask of known ones.
pub fn read_colours<F: Shelf>(
    alloc: Global,
    options: &Options,
    shelf: &mut F,
) -> Result<Vec<ColourLine>, Status>
    ensures taken { Takes (λ lines. map colour_of lines.items) result (colours_read options.now) (F.content shelf.old) (F.faults shelf.old) (F.faults shelf.new) }
    ensures fit { IfOk result (λ lines. AreFit options.now.columns options.now.reverse (map colour_of lines.items)) }
    ensures content { (other : List ℕ) → F.content shelf.new other ≡ F.content shelf.old other }
    ensures counts { (other : List ℕ) → F.faults shelf.old other ≤ F.faults shelf.new other }
{
    match &options.layout {
        Layout::File(name) => {
            read_colouring_file(
                alloc,
                name.as_str(),
                options.columns,
                options.reverse,
                shelf,
            )
        }
        Layout::Colour => Ok(Vec::new(alloc)),
        Layout::Hash => Ok(Vec::new(alloc)),
    }
}
