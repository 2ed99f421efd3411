//! The colours of one side.

ghost use Rattle.std.specs.Prelude.{◌≡◌, ◌∷◌, ◌++◌, [], if◌then◌else◌, IfOk, OnOk};
ghost use Rattle.colouring_file_meaning.specs.ColourLines.{same_side};
ghost use Rattle.layout_choice.specs.Chosen.{pair_of, pairs_on, known_pairs};

use crate::choice::ColourWay;
use colouring_file::ColourLine;
use pred_columns::ColourPair;
use rdf_meaning::SideName;
use std::alloc::{AllocError, Global};

/// Puts the pair of a line last, if it is one of the side.
fn push_pair(
    pairs: &mut Vec<ColourPair>,
    alloc: Global,
    line: &ColourLine,
    side: SideName,
) -> Result<(), AllocError>
    ensures { OnOk result (pairs.new.items ≡ (if same_side side line.now.side then pairs.old.items ++ pair_of line.now ∷ [] else pairs.old.items)) }
{
    if line.side == side {
        pairs.push(ColourPair {
            iri: line.iri.copy(alloc)?,
            column: line.column,
        })?;
    }
    Ok(())
}

fn pairs_on(
    alloc: Global,
    lines: &[ColourLine],
    side: SideName,
) -> Result<Vec<ColourPair>, AllocError>
    ensures { IfOk result (λ pairs. pairs.items ≡ pairs_on side lines.now) }
{
    let mut pairs = Vec::new(alloc);
    for at in 0..lines.len() {
        push_pair(&mut pairs, alloc, &lines[at], side)?;
    }
    Ok(pairs)
}

/// The IRIs and columns that a way names for a side.
pub(crate) fn known_pairs(
    alloc: Global,
    way: &ColourWay,
    side: SideName,
) -> Result<Vec<ColourPair>, AllocError>
    ensures { IfOk result (λ pairs. pairs.items ≡ known_pairs side way.now) }
{
    match way {
        ColourWay::HashOnly | ColourWay::Greedy => Ok(Vec::new(alloc)),
        ColourWay::Given(lines) => pairs_on(alloc, lines.as_slice(), side),
    }
}
