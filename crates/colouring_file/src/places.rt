//! The IRIs that stood on lines before, side by side.

ghost use Rattle.std.specs.Prelude.{◌≡◌, ◌&&◌, ◌||◌, ℕ, List, nat_eq, OnOk, OnErr};
ghost use Rattle.std.specs.HashSet.{contains};
ghost use Rattle.std.specs.Cmp.Lexicographic.{pointwise};
ghost use Rattle.rdf_meaning.specs.declared.side.SideName.TheVariants.{Direct, Reverse};
ghost use Rattle.colouring_file_meaning.specs.ColourLines.{same_side};

use rdf_meaning::{SideName, Text};
use std::alloc::AllocError;
use std::collections::HashSet;

fn insert(iris: &mut HashSet<Text>, iri: Text) -> Result<(), AllocError>
    ensures ok { OnOk result ((q : List ℕ) → contains (pointwise nat_eq) iris.new q ≡ (contains (pointwise nat_eq) iris.old q || pointwise nat_eq q iri)) }
    ensures err { OnErr result ((q : List ℕ) → contains (pointwise nat_eq) iris.new q ≡ contains (pointwise nat_eq) iris.old q) }
{
    let Ok(_added) = iris.insert(iri) else {
        return Err(AllocError);
    };
    Ok(())
}

/// Notes an IRI on a side.
pub(crate) fn note(
    direct: &mut HashSet<Text>,
    reverse: &mut HashSet<Text>,
    side: SideName,
    iri: Text,
) -> Result<(), AllocError>
    ensures direct { OnOk result ((q : List ℕ) → contains (pointwise nat_eq) direct.new q ≡ (contains (pointwise nat_eq) direct.old q || (same_side Direct side && pointwise nat_eq q iri))) }
    ensures reverse { OnOk result ((q : List ℕ) → contains (pointwise nat_eq) reverse.new q ≡ (contains (pointwise nat_eq) reverse.old q || (same_side Reverse side && pointwise nat_eq q iri))) }
    ensures direct_kept { OnErr result ((q : List ℕ) → contains (pointwise nat_eq) direct.new q ≡ contains (pointwise nat_eq) direct.old q) }
    ensures reverse_kept { OnErr result ((q : List ℕ) → contains (pointwise nat_eq) reverse.new q ≡ contains (pointwise nat_eq) reverse.old q) }
{
    match side {
        SideName::Direct => insert(direct, iri),
        SideName::Reverse => insert(reverse, iri),
    }
}
