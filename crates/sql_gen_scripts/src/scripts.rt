//! The script of an out.

ghost use Rattle.std.specs.Prelude.{◌≡◌, IfOk};
ghost use Rattle.std.specs.List.{filter};
ghost use Rattle.sparql_variables.specs.Bits.{members};
ghost use Rattle.sql_gen_last_laws.specs.LastSelect.{last_core};
ghost use Rattle.sql_gen_last_laws.specs.DistinctSelect.{repeated};
ghost use Rattle.sql_gen_numbered_meaning.specs.Numbered.{terms_name, lone};
ghost use Rattle.sql_gen_numbered_meaning.specs.Namings.{step_name};
ghost use Rattle.sql_gen_script_laws.specs.Scripts.{distinct_out, script_over, script_of};
ghost use Rattle.sql_gen_outs.specs.Told.{out_of};
ghost use Rattle.sql_gen_scripts.specs.Arms.{HaveNamedArms};

use crate::bodies::lone;
use crate::names::{TERMS, step_name};
use crate::written::steps;
use query_meaning::{Modifiers, VarId};
use sparql_variables::VarSet;
use sql_gen_last::{Solutions, is_distinct_first, last_core, repeated_core};
use sql_gen_outs::{Out, distinct};
use sql_gen_steps::Carrier;
use sql_meaning::{Body, Script};
use sqlite_items::Items;
use std::alloc::{AllocError, Global};

/// Those of the variables that are in the set.
fn members(alloc: Global, set: VarSet, variables: &[VarId]) -> Result<Items<VarId>, AllocError>
    ensures { IfOk result (λ vs. vs ≡ filter (members set) variables.now) }
{
    let mut kept = Items::new(alloc);
    for &v in variables {
        if set.has(v) {
            kept.push(v)?;
        }
    }
    Ok(kept)
}

/// The last SELECT over a step with these variables, of which some are bound in each row.
fn last_body<'a>(
    alloc: Global,
    number: usize,
    variables: &'a [VarId],
    certain: &'a [VarId],
    modifiers: &Modifiers,
) -> Result<Body, AllocError>
    ensures { IfOk result (λ b. b ≡ lone (last_core (step_name number) terms_name variables.now certain.now modifiers.now)) }
{
    let name = step_name(alloc, number)?;
    let solutions = Solutions {
        step: Carrier {
            name: name.as_str(),
            variables,
        },
        certain,
        terms: TERMS,
    };
    let core = last_core(alloc, solutions, modifiers)?;
    lone(alloc, core)
}

/// The same without DISTINCT.
fn repeated_body<'a>(
    alloc: Global,
    number: usize,
    variables: &'a [VarId],
    certain: &'a [VarId],
    modifiers: &Modifiers,
) -> Result<Body, AllocError>
    ensures { IfOk result (λ b. b ≡ lone (last_core (step_name number) terms_name variables.now certain.now (repeated modifiers.now))) }
{
    let name = step_name(alloc, number)?;
    let solutions = Solutions {
        step: Carrier {
            name: name.as_str(),
            variables,
        },
        certain,
        terms: TERMS,
    };
    let core = repeated_core(alloc, solutions, modifiers)?;
    lone(alloc, core)
}

fn distinct_script(alloc: Global, out: Out, modifiers: &Modifiers) -> Result<Script, AllocError>
    requires { HaveNamedArms out.steps.items }
    ensures { IfOk result (λ s. s ≡ script_over (distinct_out (out_of out) modifiers.now.shown) (filter (members out.certain) modifiers.now.shown) (repeated modifiers.now)) }
{
    let shown = modifiers.shown.as_slice();
    let certain = members(alloc, out.certain, shown)?;
    let out = distinct(alloc, out, shown)?;
    let last = repeated_body(alloc, out.last, shown, certain.as_slice(), modifiers)?;
    Ok(Script {
        steps: steps(alloc, out.steps)?,
        last,
    })
}

fn plain_script(alloc: Global, out: Out, modifiers: &Modifiers) -> Result<Script, AllocError>
    requires { HaveNamedArms out.steps.items }
    ensures { IfOk result (λ s. s ≡ script_over (out_of out) (filter (members out.certain) out.variables) modifiers.now) }
{
    let variables = out.variables.as_slice();
    let certain = members(alloc, out.certain, variables)?;
    let last = last_body(alloc, out.last, variables, certain.as_slice(), modifiers)?;
    Ok(Script {
        steps: steps(alloc, out.steps)?,
        last,
    })
}

/// The script of an out: its steps, that of DISTINCT where it may be taken before the order, and the last SELECT (SPARQL 1.1
/// Query, section 15). It refuses for want of memory alone.
pub fn script(alloc: Global, out: Out, modifiers: &Modifiers) -> Result<Script, AllocError>
    requires { HaveNamedArms out.steps.items }
    ensures { IfOk result (λ s. s ≡ script_of (out_of out) modifiers.now) }
{
    if is_distinct_first(modifiers) {
        distinct_script(alloc, out, modifiers)
    } else {
        plain_script(alloc, out, modifiers)
    }
}
