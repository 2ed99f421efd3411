//! Lists of variables.

ghost use Rattle.std.specs.Prelude.{◌≡◌, IfOk};
ghost use Rattle.sql_gen_step_laws.specs.StepSelects.{has, both};

use query_meaning::VarId;
use std::alloc::{AllocError, Global};

/// Whether a variable is one of these.
pub fn has(variables: &[VarId], v: VarId) -> bool
    ensures { result ≡ has variables.now v }
{
    variables.iter().any(|w| w.number() == v.number())
}

/// The variables of both sides, each once: those of the right side that the left one lacks come last.
pub fn both(alloc: Global, left: &[VarId], right: &[VarId]) -> Result<Vec<VarId>, AllocError>
    ensures { IfOk result (λ all. all.items ≡ both left.now right.now) }
{
    let mut all = Vec::from_slice(alloc, left)?;
    for &v in right {
        if !has(left, v) {
            all.push(v)?;
        }
    }
    Ok(all)
}
