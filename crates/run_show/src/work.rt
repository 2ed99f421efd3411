//! Showing the tables of changes and the script of the query of a text.

ghost use Rattle.std.specs.Prelude.{◌≡◌, ◌<◌, ◌^◌, length, map, IfOk, IfErr, OnOk, Ok, Err};
ghost use Rattle.colouring_file.specs.Colours.{colour_of};
ghost use Rattle.colouring_file_meaning.specs.ColourLines.{AreFit};
ghost use Rattle.run_command_laws.specs.Ranges.{AreInRange};
ghost use Rattle.run_files_meaning.specs.Files.{judged_work};
ghost use Rattle.run_files_meaning.specs.Refusal.{RefusedAs};
ghost use Rattle.run_show_meaning.specs.Showing.{Showing, showing, ShowAsks, IsShown};
ghost use Rattle.sparql_query_meaning.specs.Fragment.{OfFragment};

use crate::shown::shown_over;
use colouring_file::ColourLine;
use line_change_meaning::Change;
use query_meaning::Query;
use run_meaning::{Options, Status};
use run_query_file::{load_status, query_asked};
use run_store::store_of;
use std::alloc::Global;
use std::thread::Threads;

// The tables of the changes and the script of the query, or the limit that the changes pass.
#[tactic(auto, using(crate::proofs::Fits::direct_few, crate::proofs::Fits::reverse_few, crate::proofs::Fits::shown_fit, run_query_file::proofs::Loads::load_within, run_query_file::proofs::Loads::load_refused))]
fn show_query<R: Threads + Sync>(
    rt: &R,
    alloc: Global,
    options: &Options,
    lines: Vec<ColourLine>,
    changes: Vec<Change>,
    query: &Query,
) -> Result<Vec<u8>, Status>
    requires in_range { AreInRange options.now }
    requires fit { AreFit options.now.columns options.now.reverse (map colour_of lines.items) }
    requires few { length changes.items < 2 ^ 62 }
    requires fragment { OfFragment query.now }
    ensures ok { IfOk result (λ shown. IsShown options.now (showing (map colour_of lines.items) changes.items query.now) shown.items) }
    ensures judged { let work = showing (map colour_of lines.items) changes.items query.now in OnOk result (judged_work changes.items work ≡ Ok work) }
    ensures refused { let work = showing (map colour_of lines.items) changes.items query.now in IfErr result (λ status. RefusedAs status (λ s. judged_work changes.items work ≡ Err s)) }
{
    match store_of(rt, alloc, options, lines, changes) {
        Ok(store) => Ok(shown_over(alloc, &store, query)?),
        Err(refusal) => Err(load_status(refusal)),
    }
}

/// The text of the tables that hold what is present after the changes, under the layout that the options ask for, and of the
/// script that answers the query of a text over these tables; or the status that the changes and the text ask for: a refusal
/// of the text goes before the limits on triples and terms. The lines are those of the colouring file, if the options name
/// one. The tables stand in version 2 of their text, then comes the line `-- sql`, and then the script in its canonical
/// spelling with a line feed behind it.
///
/// # Errors
///
/// Want of memory, and what the text or the changes are refused for.
pub fn show_text<R: Threads + Sync>(
    rt: &R,
    alloc: Global,
    options: &Options,
    lines: Vec<ColourLine>,
    changes: Vec<Change>,
    text: &[u8],
) -> Result<Vec<u8>, Status>
    requires in_range { AreInRange options.now }
    requires fit { AreFit options.now.columns options.now.reverse (map colour_of lines.items) }
    requires few { length changes.items < 2 ^ 62 }
    ensures ok { IfOk result (λ shown. (work : Showing) × ShowAsks (map colour_of lines.items) changes.items text.now (Ok work) × IsShown options.now work shown.items) }
    ensures err { IfErr result (λ status. RefusedAs status (λ s. ShowAsks (map colour_of lines.items) changes.items text.now (Err s))) }
{
    let query = query_asked(alloc, text)?;
    show_query(rt, alloc, options, lines, changes, &query)
}
