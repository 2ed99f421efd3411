//! What the access step of a star asks, and the chain that begins behind it.

ghost use Rattle.std.specs.Prelude.{◌≡◌, ◌<◌, [], ◌∷◌, ◌++◌, length, nat_le, slice_set, IfOk};
ghost use Rattle.query_plan_meaning.specs.Stars.{arms_of, stars_certain};
ghost use Rattle.sparql_variables.specs.Bits.{members};
ghost use Rattle.sql_gen_star_meaning.specs.Asked.{asked_vars};
ghost use Rattle.sql_gen_star_solution_laws.specs.StarArms.{optional_arms, required_arms};
ghost use Rattle.sql_gen_numbered_meaning.specs.declared.numbered.NumberedBody.TheVariants.{Single};
ghost use Rattle.sql_gen_star_out_laws.specs.StarOuts.{told_columns, told_id};

use pred_columns::{Columns, IdPair, LayoutFacts};
use query_plan_meaning::{Arm, Star, StarBody};
use rdf_meaning::SideName;
use sparql_certain::star_certain;
use sparql_variables::VarSet;
use sql_gen_arms::{Chain, optional_arms, required_arms};
use sql_gen_numbered_meaning::NumberedBody;
use sql_gen_star_meaning::{Asked, StarArm};
use sql_gen_stars::asked_vars;
use sqlite_items::Items;
use std::alloc::{AllocError, Global};

/// The columns of a side.
pub(crate) fn told_columns(facts: &LayoutFacts, side: SideName) -> &Columns
    ensures { result.now ≡ told_columns facts.now side }
{
    match side {
        SideName::Direct => &facts.direct,
        SideName::Reverse => &facts.reverse,
    }
}

/// Whether a star has one arm at most: all rows are read for it, and for several arms those of number 0.
pub(crate) fn has_one_arm(body: &StarBody) -> bool
    ensures { result ≡ nat_le (length (arms_of body.now)) 1 }
{
    let (first, second) = match body {
        StarBody::Both { required, optional } => (required.len(), optional.len()),
        StarBody::Either { left, right } => (left.len(), right.len()),
    };
    first <= 1 && second <= 1 - first
}

/// The variables that each solution of a star binds.
#[tactic(auto, using(crate::proofs::StarParts::certain_laws))]
pub(crate) fn certain(star: &Star) -> VarSet
    ensures { members result ≡ stars_certain (star.now ∷ []) }
{
    star_certain(star)
}

/// The arms of a star by the ids of terms, the required ones first.
pub(crate) fn star_arms(
    alloc: Global,
    columns: &Columns,
    ids: &[IdPair],
    entity: Asked,
    required: &[Arm],
    optional: &[Arm],
) -> Result<Items<StarArm>, AllocError>
    ensures { IfOk result (λ arms. arms ≡ required_arms columns.now (told_id ids.now) (asked_vars entity []) required.now ++ optional_arms columns.now (told_id ids.now) optional.now) }
{
    let mut arms = Items::new(alloc);
    let bound = asked_vars(alloc, entity, &[])?;
    required_arms(alloc, columns, ids, bound, required, &mut arms)?;
    optional_arms(alloc, columns, ids, optional, &mut arms)?;
    Ok(arms)
}

/// The chain of the access step alone. Its place is held until the steps behind it have read the arms.
pub(crate) fn held(alloc: Global, entity: Asked) -> Result<Chain, AllocError>
    ensures steps { IfOk result (λ c. c.steps.items ≡ Single ∷ []) }
    ensures last { IfOk result (λ c. c.before ≡ 0) }
    ensures bound { IfOk result (λ c. c.bound.items ≡ asked_vars entity []) }
{
    let mut steps = Vec::new(alloc);
    steps.push(NumberedBody::Single)?;
    Ok(Chain {
        steps,
        before: 0,
        bound: asked_vars(alloc, entity, &[])?,
    })
}

/// The steps with the access step in the place that was held for it.
pub(crate) fn with_access(mut steps: Vec<NumberedBody>, access: NumberedBody) -> Vec<NumberedBody>
    requires { 0 < length steps.items }
    ensures { result.items ≡ slice_set steps.items 0 access }
{
    steps[0] = access;
    steps
}
