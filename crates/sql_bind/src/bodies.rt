//! Bodies and steps: SELECTs with their numbers.

ghost use Rattle.std.specs.Prelude.{◌≡◌, ◌<◌, ◌+◌, ◌^◌, ◌∷◌, [], length, map, Ok, Err, Some, None, IfOk, IfErr, OnOk, MatchOption};
ghost use Rattle.sql_rows_meaning.specs.declared.fault.Fault.{Fault};
ghost use Rattle.sql_rows_meaning.specs.Faults.{in_select};
ghost use Rattle.sql_rows_meaning.specs.Scopes.{schemas_of};
ghost use Rattle.sql_rows_meaning.specs.Binding.{check_select, check_others, check_body, check_step_body};
ghost use Rattle.sql_bind_laws.specs.Places.{place_core, place_body};
ghost use Rattle.sql_bind.specs.Refusals.{fault_of};

use crate::refusal::{BindRefusal, refusal_at};
use crate::selects::{Select, bind_first, bind_like};
use sql_bind_meaning::{BoundBody, BoundCore};
use sql_bind_names::{Known, Stop};
use sql_meaning::{Core, Step};
use sqlite_items::Items;
use std::alloc::Global;
use table_meaning::Column;

/// A body with places, and the columns of its rows.
#[derive(Drop)]
pub(crate) struct Body {
    pub(crate) body: BoundBody,
    pub(crate) columns: Vec<Column>,
}

#[tactic(auto, using(crate::proofs::BodySteps::numbered_steps))]
fn first_at(alloc: Global, known: &Known, n: u64, core: &Core) -> Result<Select, BindRefusal>
    ensures fine { IfOk result (λ r. in_select n (check_select (schemas_of known.now) None core.now) ≡ Ok r.columns.items) }
    ensures placed { IfOk result (λ r. r.core ≡ place_core known.now core.now) }
    ensures refused { IfErr result (λ e. (f : Fault) → fault_of e ≡ Some f → in_select n (check_select (schemas_of known.now) None core.now) ≡ Err f) }
{
    match bind_first(alloc, known, core) {
        Ok(select) => Ok(select),
        Err(Stop::NoMemory) => Err(BindRefusal::NoMemory),
        Err(Stop::Fault(kind)) => Err(refusal_at(kind, n)),
    }
}

#[tactic(auto, using(crate::proofs::BodySteps::numbered_steps))]
fn like_at(
    alloc: Global,
    known: &Known,
    n: u64,
    first: &[Column],
    core: &Core,
) -> Result<Select, BindRefusal>
    ensures fine { IfOk result (λ r. in_select n (check_select (schemas_of known.now) (Some first.now) core.now) ≡ Ok r.columns.items) }
    ensures placed { IfOk result (λ r. r.core ≡ place_core known.now core.now) }
    ensures refused { IfErr result (λ e. (f : Fault) → fault_of e ≡ Some f → in_select n (check_select (schemas_of known.now) (Some first.now) core.now) ≡ Err f) }
{
    match bind_like(alloc, known, first, core) {
        Ok(select) => Ok(select),
        Err(Stop::NoMemory) => Err(BindRefusal::NoMemory),
        Err(Stop::Fault(kind)) => Err(refusal_at(kind, n)),
    }
}

// The SELECTs behind the first one, which stands in `bound` already; n is the number of the next.
#[tactic(auto, using(crate::proofs::BodySteps::others_steps))]
fn bind_others(
    alloc: Global,
    known: &Known,
    n: u64,
    first: &Select,
    cores: &[Core],
) -> Result<Items<BoundCore>, BindRefusal>
    requires { n + length cores.now < 2 ^ 64 }
    ensures fine { OnOk result (check_others (schemas_of known.now) n first.now.columns.items cores.now ≡ Ok first.now.columns.items) }
    ensures cores { IfOk result (λ r. r ≡ map (place_core known.now) cores.now) }
    ensures refused { IfErr result (λ e. (f : Fault) → fault_of e ≡ Some f → check_others (schemas_of known.now) n first.now.columns.items cores.now ≡ Err f) }
{
    let mut bound = Items::new(alloc);
    for at in 0..cores.len() {
        let select = like_at(alloc, known, n + at as u64, &first.columns, &cores[at])?;
        bound.push(select.core)?;
    }
    Ok(bound)
}

// The first SELECT, and those behind it.
fn split(cores: &[Core]) -> Option<(&Core, &[Core])>
    ensures parts { MatchOption result (cores.now ≡ []) (λ r. cores.now ≡ r.0.now ∷ r.1.now) }
    ensures count { MatchOption result (cores.now ≡ []) (λ r. length cores.now ≡ length r.1.now + 1) }
{
    match cores {
        [] => None,
        [first, others @ ..] => Some((first, others)),
    }
}

/// A body, whose first SELECT has the number n.
#[tactic(auto, using(crate::proofs::BodySteps::body_steps))]
pub(crate) fn bind_body(
    alloc: Global,
    known: &Known,
    n: u64,
    cores: &[Core],
) -> Result<Body, BindRefusal>
    requires { n + length cores.now < 2 ^ 64 }
    ensures fine { IfOk result (λ r. check_body (schemas_of known.now) n cores.now ≡ Ok r.columns.items) }
    ensures body { IfOk result (λ r. r.body ≡ place_body known.now cores.now) }
    ensures refused { IfErr result (λ e. (f : Fault) → fault_of e ≡ Some f → check_body (schemas_of known.now) n cores.now ≡ Err f) }
{
    let mut bound = Items::new(alloc);
    let Some((core, others)) = split(cores) else {
        return Ok(Body {
            body: BoundBody { cores: bound },
            columns: Vec::new(alloc),
        })
    };
    let first = first_at(alloc, known, n, core)?;
    let others = bind_others(alloc, known, n + 1, &first, others)?;
    bound.push(first.core)?;
    bound.append(others)?;
    Ok(Body {
        body: BoundBody { cores: bound },
        columns: first.columns,
    })
}

/// A step, whose first SELECT has the number n. That its name is new goes before its body.
#[tactic(auto, using(crate::proofs::BodySteps::step_steps))]
pub(crate) fn bind_step(alloc: Global, known: &Known, n: u64, s: &Step) -> Result<Body, BindRefusal>
    requires { n + length s.now.body.cores < 2 ^ 64 }
    ensures new { OnOk result (schemas_of known.now s.now.name ≡ None) }
    ensures columns { IfOk result (λ r. check_body (schemas_of known.now) n s.now.body.cores ≡ Ok r.columns.items) }
    ensures fine { IfOk result (λ r. check_step_body (schemas_of known.now) n s.now ≡ Ok r.columns.items) }
    ensures body { IfOk result (λ r. r.body ≡ place_body known.now s.now.body.cores) }
    ensures refused { IfErr result (λ e. (f : Fault) → fault_of e ≡ Some f → check_step_body (schemas_of known.now) n s.now ≡ Err f) }
{
    match known.find(&s.name) {
        Some(_) => Err(BindRefusal::Twice { select: n }),
        None => bind_body(alloc, known, n, s.body.cores.as_slice()),
    }
}
