//! The steps that open the lists of arms, one for each arm.

ghost use Rattle.std.specs.Prelude.{◌≡◌, ◌+◌, ◌++◌, length, IfOk};
ghost use Rattle.sql_gen_star_meaning.specs.Openings.{cells_of, open_vars, openings_from};
ghost use Rattle.sql_gen_numbered_meaning.specs.NumberedStars.{numbered_last, numbered_openings};

use query_meaning::VarId;
use rdf_meaning::SideName;
use sql_gen_numbered_meaning::NumberedBody;
use sql_gen_star_meaning::StarArm;
use sql_gen_stars::asked_vars;
use sqlite_items::Items;
use std::alloc::{AllocError, Global};

/// The number behind another one. It refuses the last number alone, as for want of memory: no memory holds arms beyond it.
pub fn next(number: u32) -> Result<u32, AllocError>
    ensures { IfOk result (λ n. n ≡ number + 1) }
{
    let Some(number) = number.checked_add(1) else {
        return Err(AllocError);
    };
    Ok(number)
}

/// The numbers of arms, from this one on.
fn cells(alloc: Global, first: u32, arms: &[StarArm]) -> Result<Items<u32>, AllocError>
    ensures { IfOk result (λ cells. cells ≡ cells_of (openings_from first arms.now)) }
{
    let mut cells = Items::new(alloc);
    let mut number = first;
    for _arm in arms {
        cells.push(number)?;
        number = next(number)?;
    }
    Ok(cells)
}

/// A chain of steps, counted from 0: all steps so far, the number of the one that the next one reads, and the variables of
/// that one's rows in the order of their columns.
#[derive(Drop)]
pub struct Chain {
    pub steps: Vec<NumberedBody>,
    pub before: usize,
    pub bound: Vec<VarId>,
}

/// The chain with a step behind it for each arm, of which the first one has the number `first` among the arms of the access
/// step, and the others those behind it: each step reads the one in front of it. It refuses for want of memory alone.
pub fn opened(
    alloc: Global,
    side: SideName,
    chain: Chain,
    first: u32,
    arms: &[StarArm],
) -> Result<Chain, AllocError>
    ensures steps { IfOk result (λ new. new.steps.items ≡ chain.steps.items ++ numbered_openings side (length chain.steps.items) chain.before chain.bound.items (openings_from first arms.now)) }
    ensures last { IfOk result (λ new. new.before ≡ numbered_last (length chain.steps.items) chain.before (openings_from first arms.now)) }
    ensures bound { IfOk result (λ new. new.bound.items ≡ open_vars chain.bound.items (openings_from first arms.now)) }
{
    let Chain {
        mut steps,
        mut before,
        mut bound,
    } = chain;
    let mut number = first;
    let mut rest = arms;
    while let Some((arm, others)) = rest.split_first() {
        let place = steps.len();
        let after = asked_vars(alloc, arm.asked, bound.as_slice())?;
        let second = next(number)?;
        steps.push(NumberedBody::Open {
            side,
            first: before,
            firsts: Items::from_vec(bound),
            arm: number,
            later: cells(alloc, second, others)?,
            asked: arm.asked,
        })?;
        before = place;
        bound = after;
        number = second;
        rest = others;
    }
    Ok(Chain {
        steps,
        before,
        bound,
    })
}
