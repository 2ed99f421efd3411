//! The text of what is counted of the tables of changes.

ghost use Rattle.std.specs.Prelude.{◌≡◌, ◌<◌, ◌^◌, IfOk, OnOk, IfErr, None, length, map};
ghost use Rattle.run_meaning.specs.Limits.{passed_limit};
ghost use Rattle.run_command_laws.specs.Ranges.{AreInRange};
ghost use Rattle.colouring_file_meaning.specs.ColourLines.{AreFit};
ghost use Rattle.colouring_file.specs.Colours.{colour_of};
ghost use Rattle.layout_placed_meaning.specs.Chosen.{IsCounted};
ghost use Rattle.rdf_triples.specs.Refusals.{Refuses};

use crate::text::text_of;
use colouring_file::ColourLine;
use line_change_meaning::Change;
use rdf_triples::LoadRefusal;
use run_meaning::Options;
use run_store::store_of;
use std::alloc::Global;
use std::thread::Threads;

/// The four lines of what is counted of the tables that hold the triples present after the changes, under the
/// layout that the options ask for; the lines are those of the colouring file, if they name one. The terms are
/// those that additions needed. It is refused exactly where a change passes a limit, by the first that does.
pub fn stats_text<R: Threads + Sync>(
    rt: &R,
    alloc: Global,
    options: &Options,
    lines: Vec<ColourLine>,
    changes: Vec<Change>,
) -> Result<Vec<u8>, LoadRefusal>
    requires in_range { AreInRange options.now }
    requires fit { AreFit options.now.columns options.now.reverse (map colour_of lines.items) }
    requires few { length changes.items < 2 ^ 62 }
    ensures ok { IfOk result (λ text. IsCounted options.now (map colour_of lines.items) changes.items text.items) }
    ensures within { OnOk result (passed_limit changes.items ≡ None) }
    ensures passed { IfErr result (λ e. Refuses e (passed_limit changes.items)) }
{
    let store = store_of(rt, alloc, options, lines, changes)?;
    Ok(text_of(alloc, &store.stats())?)
}
