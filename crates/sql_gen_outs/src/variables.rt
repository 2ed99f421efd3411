//! Lists of variables.

ghost use Rattle.std.specs.Prelude.{◌≡◌, IfOk};
ghost use Rattle.query_eval_meaning.specs.Variables.{in_both, in_either};
ghost use Rattle.sparql_variables.specs.Bits.{members};
ghost use Rattle.sql_gen_step_laws.specs.StepSelects.{has, both};
ghost use Rattle.sql_gen_node_laws.specs.Nodes.{certain_shared, certain_own};
ghost use Rattle.sql_gen_outs.specs.Told.{out_of};

use crate::out::Out;
use query_meaning::VarId;
use sparql_variables::VarSet;
use sqlite_items::Items;
use std::alloc::{AllocError, Global};

/// Whether a variable is one of these.
fn has(variables: &[VarId], v: VarId) -> bool
    ensures { result ≡ has variables.now v }
{
    variables.iter().any(|w| w.number() == v.number())
}

pub(crate) fn copied(alloc: Global, variables: &Items<VarId>) -> Result<Items<VarId>, AllocError>
    ensures { IfOk result (λ vs. vs ≡ variables.now) }
{
    Items::from_slice(alloc, variables.as_slice())
}

/// The variables of both outs, each once: those of the second one that the first one lacks come last.
pub(crate) fn both(alloc: Global, first: &Out, second: &Out) -> Result<Items<VarId>, AllocError>
    ensures { IfOk result (λ vs. vs ≡ both first.now.variables second.now.variables) }
{
    let mut all = copied(alloc, &first.variables)?;
    for &v in second.variables.as_slice() {
        if !has(first.variables.as_slice(), v) {
            all.push(v)?;
        }
    }
    Ok(all)
}

/// What both outs have and bind in each row.
pub(crate) fn certain_shared(
    alloc: Global,
    first: &Out,
    second: &Out,
) -> Result<Items<VarId>, AllocError>
    ensures { IfOk result (λ vs. vs ≡ certain_shared (out_of first.now) (out_of second.now)) }
{
    let mut certain = Items::new(alloc);
    for &v in second.variables.as_slice() {
        if has(first.variables.as_slice(), v) && first.certain.has(v) && second.certain.has(v) {
            certain.push(v)?;
        }
    }
    Ok(certain)
}

/// What an out has and binds in each row.
pub(crate) fn certain_own(alloc: Global, out: &Out) -> Result<Items<VarId>, AllocError>
    ensures { IfOk result (λ vs. vs ≡ certain_own (out_of out.now)) }
{
    let mut certain = Items::new(alloc);
    for &v in out.variables.as_slice() {
        if out.certain.has(v) {
            certain.push(v)?;
        }
    }
    Ok(certain)
}

/// What one of the outs binds in each row.
pub(crate) fn certain_either(first: &Out, second: &Out) -> VarSet
    ensures { members result ≡ in_either (members first.now.certain) (members second.now.certain) }
{
    first.certain.either(&second.certain)
}

/// What both outs bind in each row.
pub(crate) fn certain_both(first: &Out, second: &Out) -> VarSet
    ensures { members result ≡ in_both (members first.now.certain) (members second.now.certain) }
{
    first.certain.both(&second.certain)
}
