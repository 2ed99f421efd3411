//! Numbered steps under their names.

ghost use Rattle.std.specs.Prelude.{◌≡◌, IfOk};
ghost use Rattle.sql_gen_numbered_meaning.specs.Numbered.{written};
ghost use Rattle.sql_gen_numbered_meaning.specs.Namings.{step_name};
ghost use Rattle.sql_gen_scripts.specs.Arms.{HaveNamedArms};

use crate::bodies::body;
use crate::names::step_name;
use sql_gen_numbered_meaning::NumberedBody;
use sql_meaning::Step;
use sqlite_items::Items;
use std::alloc::{AllocError, Global};

/// The steps of an out, each under `s` and its number. It refuses for want of memory alone.
pub fn steps(alloc: Global, bodies: Vec<NumberedBody>) -> Result<Items<Step>, AllocError>
    requires { HaveNamedArms bodies.items }
    ensures { IfOk result (λ steps. steps ≡ written step_name bodies.items) }
{
    let mut steps = Items::new(alloc);
    for step in bodies {
        let name = step_name(alloc, steps.len())?;
        let body = body(alloc, step)?;
        steps.push(Step { name, body })?;
    }
    Ok(steps)
}
