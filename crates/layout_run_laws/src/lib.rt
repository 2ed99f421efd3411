//! Sides that are made run by run. The function without a body is a law of these definitions.
#![tactic(auto)]

ghost use Rattle.layout_run_laws.specs.RunLaws.{RunsGoTogether, RunsStandAbove, CutsAreRuns, CutsAreWhole, PiecesChangeNothing};

/// Runs of rising entities, none in two of them, may be placed apart and appended in their order; sorted items
/// are cut into such runs; and the side that so arises is that of all items, whatever the number of runs.
pub fn pieces_change_nothing()
    ensures together { RunsGoTogether }
    ensures above { RunsStandAbove }
    ensures runs { CutsAreRuns }
    ensures whole { CutsAreWhole }
    ensures same { PiecesChangeNothing }
{}
