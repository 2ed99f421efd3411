//! Outs without parts, or with one.

ghost use Rattle.std.specs.Prelude.{◌≡◌, IfOk};
ghost use Rattle.sql_gen_node_laws.specs.Nodes.{empty_out, filtered_out};
ghost use Rattle.sql_gen_script_laws.specs.Scripts.{distinct_out};
ghost use Rattle.sql_gen_outs.specs.Told.{out_of};

use crate::out::Out;
use crate::variables::copied;
use query_meaning::VarId;
use sparql_variables::VarSet;
use sql_gen_numbered_meaning::NumberedBody;
use sql_meaning::SqlExpr;
use sqlite_items::Items;
use std::alloc::{AllocError, Global};

/// The out of a group without patterns (SPARQL 1.1 Query, section 18.5, the empty basic graph pattern).
pub fn empty(alloc: Global) -> Result<Out, AllocError>
    ensures { IfOk result (λ out. out_of out ≡ empty_out) }
{
    let mut steps = Vec::new(alloc);
    steps.push(NumberedBody::Single)?;
    Ok(Out {
        steps,
        last: 0,
        variables: Items::new(alloc),
        certain: VarSet::empty(),
    })
}

/// The out of a Filter (SPARQL 1.1 Query, section 18.5, Filter): the condition is in SQL, over the terms of some variables.
pub fn filtered(
    alloc: Global,
    out: Out,
    terms: Items<VarId>,
    condition: SqlExpr,
) -> Result<Out, AllocError>
    ensures { IfOk result (λ all. out_of all ≡ filtered_out (out_of out) terms condition) }
{
    let Out {
        mut steps,
        last,
        variables,
        certain,
    } = out;
    let number = steps.len();
    let firsts = copied(alloc, &variables)?;
    steps.push(NumberedBody::Filtered {
        first: last,
        firsts,
        terms,
        condition,
    })?;
    Ok(Out {
        steps,
        last: number,
        variables,
        certain,
    })
}

/// The out with one more step, of the different rows of the shown variables.
pub fn distinct(alloc: Global, out: Out, shown: &[VarId]) -> Result<Out, AllocError>
    ensures { IfOk result (λ all. out_of all ≡ distinct_out (out_of out) shown.now) }
{
    let Out {
        mut steps,
        last,
        variables,
        ..
    } = out;
    let number = steps.len();
    steps.push(NumberedBody::Distinct {
        first: last,
        firsts: variables,
        shown: Items::from_slice(alloc, shown)?,
    })?;
    Ok(Out {
        steps,
        last: number,
        variables: Items::from_slice(alloc, shown)?,
        certain: VarSet::empty(),
    })
}
