//! Elements without groups in them.

ghost use Rattle.std.specs.Prelude.{◌≡◌, OnOk};
ghost use Rattle.sparql_meaning.specs.Translation.{take_part};
ghost use Rattle.sparql_meaning.specs.Translation as meaning;

use query_meaning::{Pattern, TruthExpr};
use sparql_copies::{copy_patterns, copy_truth};
use sparql_meaning::Gathered;
use sparql_trees::{take_condition, take_triples};
use std::alloc::{AllocError, Global};

pub(crate) fn take_written_triples(
    alloc: Global,
    before: &mut Gathered,
    triples: &[Pattern],
) -> Result<(), AllocError>
    ensures { OnOk result (before.new ≡ take_part before.old (meaning.patterns triples.now)) }
{
    let more = copy_patterns(alloc, triples)?;
    take_triples(before, more)
}

pub(crate) fn take_written_condition(
    alloc: Global,
    before: &mut Gathered,
    condition: &TruthExpr,
) -> Result<(), AllocError>
    ensures { OnOk result (before.new ≡ take_part before.old (meaning.condition condition.now)) }
{
    let more = copy_truth(alloc, condition)?;
    take_condition(before, more)
}
