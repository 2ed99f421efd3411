//! Whole scripts.

ghost use Rattle.std.specs.Prelude.{◌≡◌, ◌+◌, map, length, Err, Some, IfOk, IfErr, IsTrue};
ghost use Rattle.table_meaning.specs.Schemas.{are_distinct};
ghost use Rattle.sql_rows_meaning.specs.declared.fault.Fault.{Fault};
ghost use Rattle.sql_rows_meaning.specs.declared.schema.NamedSchema.{NamedSchema};
ghost use Rattle.sql_rows_meaning.specs.Binding.{check_script};
ghost use Rattle.sql_bind.specs.Refusals.{fault_of};
ghost use Rattle.sql_bind.specs.Parts.{AreBound, HaveFault};
ghost use Rattle.sql_bind.specs.Bound.{has_items, IsBoundFrom};

use crate::bodies::{bind_body, bind_step};
use crate::refusal::BindRefusal;
use sql_bind_forms::Bound;
use sql_bind_meaning::{BoundBody, BoundScript};
use sql_bind_names::Known;
use sql_meaning::{Core, Script, Step};
use sql_rows_meaning::NamedSchema;
use sqlite_items::Items;
use std::alloc::{AllocError, Global};
use table_meaning::Schema;

// The tables and steps so far, the steps with places, and the number of the next SELECT.
#[derive(Drop)]
struct Steps {
    known: Known,
    bodies: Items<BoundBody>,
    next: u64,
}

// The number of the SELECT behind a body; more SELECTs than that have no place in memory.
fn number_behind(n: u64, cores: &[Core]) -> Result<u64, BindRefusal>
    ensures number { IfOk result (λ next. next ≡ n + length cores.now) }
    ensures refused { IfErr result (λ e. (f : Fault) → fault_of e ≡ Some f → ⊥) }
{
    n.checked_add(cores.len() as u64)
        .ok_or(BindRefusal::NoMemory)
}

#[tactic(auto, using(crate::proofs::ScriptSteps::step_rules))]
fn bind_steps(alloc: Global, schemas: &[NamedSchema], steps: &[Step]) -> Result<Steps, BindRefusal>
    requires { IsTrue (are_distinct (map (λ (s : NamedSchema). s.name) schemas.now)) }
    ensures bound { IfOk result (λ r. AreBound schemas.now steps.now r.known r.next r.bodies) }
    ensures refused { IfErr result (λ e. (f : Fault) → fault_of e ≡ Some f → HaveFault schemas.now steps.now f) }
{
    let mut known = Known::new(alloc, schemas)?;
    let mut bodies = Items::new(alloc);
    let mut next = 1;
    for step in steps {
        let behind = number_behind(next, step.body.cores.as_slice())?;
        let bound = bind_step(alloc, &known, next, step)?;
        known.add(alloc, &step.name, &bound.columns)?;
        bodies.push(bound.body)?;
        next = behind;
    }
    Ok(Steps {
        known,
        bodies,
        next,
    })
}

// Equal schemas under equal names.
fn copied(alloc: Global, schemas: &[NamedSchema]) -> Result<Vec<NamedSchema>, AllocError>
    ensures { IfOk result (λ copies. copies.items ≡ schemas.now) }
{
    let mut copies = Vec::with_capacity(alloc, schemas.len())?;
    for given in schemas {
        let name = given.name.copy(alloc)?;
        let schema = given.schema.copy(alloc)?;
        copies.push(NamedSchema { name, schema })?;
    }
    Ok(copies)
}

/// Binds a script, whose last body has a SELECT with an item, over tables with these schemas, whose names differ: each name
/// of the script gets its place. A refusal tells the first fault of the script, and comes exactly where there is one, or
/// where memory wants.
#[tactic(auto, using(crate::proofs::ScriptSteps::whole_rules))]
pub fn bind(alloc: Global, s: &Script, schemas: &[NamedSchema]) -> Result<Bound, BindRefusal>
    requires names { IsTrue (are_distinct (map (λ (s : NamedSchema). s.name) schemas.now)) }
    requires form { IsTrue (has_items s.now.last.cores) }
    ensures bound { IfOk result (IsBoundFrom s.now schemas.now) }
    ensures refused { IfErr result (λ e. (f : Fault) → fault_of e ≡ Some f → check_script s.now schemas.now ≡ Err f) }
{
    let steps = bind_steps(alloc, schemas, s.steps.as_slice())?;
    let _behind = number_behind(steps.next, s.last.cores.as_slice())?;
    let last = bind_body(alloc, &steps.known, steps.next, s.last.cores.as_slice())?;
    let tables = copied(alloc, schemas)?;
    let placed = BoundScript {
        steps: steps.bodies,
        last: last.body,
    };
    Ok(Bound::new(placed, Schema::new(last.columns), tables))
}
