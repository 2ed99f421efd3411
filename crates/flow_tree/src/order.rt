//! The choices of a leaf, one after the other, and the steps that tell them.

ghost use Rattle.std.specs.Prelude.{◌≡◌, ◌<◌, true, IfOk};
ghost use Rattle.query_flow_meaning.specs.Flow.{IsGreedy, flow_of, flow_steps};
ghost use Rattle.query_flow_meaning.specs.Planned.{are_numbered_apart};

use crate::choice::{Choice, step_of};
use crate::least::least;
use pred_columns::Counts;
use query_flow_meaning::FlowStep;
use query_meaning::Pattern;
use sparql_certain::with_pattern;
use sparql_variables::VarSet;
use std::alloc::{AllocError, Global};

/// The flow of a leaf, as choices of its patterns.
///
/// # Errors
///
/// Want of memory.
pub fn choices<'a>(
    alloc: Global,
    patterns: &'a [Pattern],
    counts: &Counts,
) -> Result<Vec<Choice<'a>>, AllocError>
    requires { counts.now.triples < 0xffffffffffffffff }
    ensures { IfOk result (λ found. found.items ≡ flow_of counts.now patterns.now) }
{
    let mut taken = Vec::new(alloc);
    let mut bound = VarSet::empty();
    for _ in patterns {
        let Some(choice) = least(counts, &bound, patterns, taken.as_slice()) else {
            return Ok(taken);
        };
        bound = with_pattern(&bound, choice.pattern);
        taken.push(choice)?;
    }
    Ok(taken)
}

/// The flow of a leaf: in which order its patterns are looked up, how, and at what cost. It is the greedy one, which always
/// takes the least allowed choice, by cost, then by the pattern's number, then by the method.
///
/// # Errors
///
/// Want of memory.
pub fn flow(
    alloc: Global,
    patterns: &[Pattern],
    counts: &Counts,
) -> Result<Vec<FlowStep>, AllocError>
    requires { counts.now.triples < 0xffffffffffffffff }
    ensures steps { IfOk result (λ steps. steps.items ≡ flow_steps counts.now patterns.now) }
    ensures greedy { IfOk result (λ steps. are_numbered_apart patterns.now ≡ true → IsGreedy counts.now patterns.now (flow_of counts.now patterns.now)) }
{
    let choices = choices(alloc, patterns, counts)?;
    let mut steps = Vec::new(alloc);
    for choice in &choices {
        steps.push(step_of(counts, choice))?;
    }
    Ok(steps)
}
