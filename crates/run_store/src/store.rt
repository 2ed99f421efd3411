//! The store of changes under options.

ghost use Rattle.std.specs.Prelude.{◌≡◌, ◌<◌, ◌^◌, IfOk, OnOk, IfErr, None, length, map};
ghost use Rattle.run_meaning.specs.Limits.{passed_limit};
ghost use Rattle.run_command_laws.specs.Ranges.{AreInRange};
ghost use Rattle.colouring_file_meaning.specs.ColourLines.{AreFit};
ghost use Rattle.colouring_file.specs.Colours.{colour_of};
ghost use Rattle.layout_placed_meaning.specs.RunStores.{IsRunStore};
ghost use Rattle.rdf_triples.specs.Refusals.{Refuses};

use crate::choosing::choice_of;
use crate::cut::cut_at_deletion;
use crate::placing::place;
use colouring_file::ColourLine;
use line_change_meaning::Change;
use rdf_layout::Store;
use rdf_triples::LoadRefusal;
use run_meaning::Options;
use std::alloc::Global;
use std::thread::Threads;

/// The store of changes, whose tables stand for the triples that are present after them: the bulk is loaded at
/// once and the later changes are made one by one, under the layout that the options ask for; the lines are
/// those of the colouring file, if they name one. It is refused exactly where a change passes the limit on
/// triples or terms, by the first that does; at one change triples go before terms.
pub fn store_of<R: Threads + Sync>(
    rt: &R,
    alloc: Global,
    options: &Options,
    lines: Vec<ColourLine>,
    changes: Vec<Change>,
) -> Result<Store, LoadRefusal>
    requires in_range { AreInRange options.now }
    requires fit { AreFit options.now.columns options.now.reverse (map colour_of lines.items) }
    requires few { length changes.items < 2 ^ 62 }
    ensures store { IfOk result (IsRunStore options.now (map colour_of lines.items) changes.items) }
    ensures within { OnOk result (passed_limit changes.items ≡ None) }
    ensures passed { IfErr result (λ e. Refuses e (passed_limit changes.items)) }
{
    let choice = choice_of(alloc, options, lines)?;
    let cut = cut_at_deletion(alloc, changes)?;
    place(rt, alloc, &choice, options.pieces, &cut.bulk, &cut.later)
}
