//! The layout that options ask for.

ghost use Rattle.std.specs.Prelude.{◌≡◌, IfOk, IfErr, map};
ghost use Rattle.run_command_laws.specs.Ranges.{AreInRange};
ghost use Rattle.colouring_file_meaning.specs.ColourLines.{AreFit};
ghost use Rattle.colouring_file.specs.Colours.{colour_of};
ghost use Rattle.layout_placed_meaning.specs.Chosen.{choice_of};
ghost use Rattle.run_store.specs.Ways.{way_for};

use colouring_file::ColourLine;
use layout_choice::colours_that_fit_are_taken;
use pred_columns::ColumnRefusal;
use rdf_layout::{ColourWay, LayoutChoice};
use rdf_triples::LoadRefusal;
use run_meaning::{Layout, Options};
use std::alloc::Global;

// How the known columns are found.
fn way_of(layout: &Layout, lines: Vec<ColourLine>) -> ColourWay
    ensures { result ≡ way_for layout.now lines }
{
    match layout {
        Layout::Colour => ColourWay::Greedy,
        Layout::Hash => ColourWay::HashOnly,
        Layout::File(_name) => ColourWay::Given(lines),
    }
}

/// What options choose of a layout. Options in range are not refused, and neither are lines that fit them.
pub(crate) fn choice_of(
    alloc: Global,
    options: &Options,
    lines: Vec<ColourLine>,
) -> Result<LayoutChoice, LoadRefusal>
    requires in_range { AreInRange options.now }
    requires fit { AreFit options.now.columns options.now.reverse (map colour_of lines.items) }
    ensures ok { IfOk result (λ choice. choice ≡ choice_of options.now (map colour_of lines.items)) }
    ensures err { IfErr result (λ e. e ≡ LoadRefusal.NoMemory) }
{
    colours_that_fit_are_taken();
    let way = way_of(&options.layout, lines);
    match LayoutChoice::new(alloc, options.columns, options.reverse, options.hashes, way) {
        Ok(choice) => Ok(choice),
        Err(ColumnRefusal::NoMemory) => Err(LoadRefusal::NoMemory),
        Err(_) => unreachable!(),
    }
}
