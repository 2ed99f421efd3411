//! Copies of stars.

ghost use Rattle.std.specs.Prelude.{◌≡◌, IfOk};

use query_plan_meaning::{Arm, Star, StarBody};
use sparql_copies::copy_slot;
use sqlite_items::Items;
use std::alloc::{AllocError, Global};

pub(crate) fn copy_arm(alloc: Global, arm: &Arm) -> Result<Arm, AllocError>
    ensures { IfOk result (λ copy. copy ≡ arm.now) }
{
    Ok(Arm {
        pattern: arm.pattern,
        pred: copy_slot(alloc, &arm.pred)?,
        value: copy_slot(alloc, &arm.value)?,
    })
}

pub(crate) fn copy_arms(alloc: Global, arms: &[Arm]) -> Result<Items<Arm>, AllocError>
    ensures { IfOk result (λ copies. copies ≡ arms.now) }
{
    let mut copies = Items::new(alloc);
    for arm in arms {
        let copy = copy_arm(alloc, arm)?;
        copies.push(copy)?;
    }
    Ok(copies)
}

fn copy_body(alloc: Global, body: &StarBody) -> Result<StarBody, AllocError>
    ensures { IfOk result (λ copy. copy ≡ body.now) }
{
    match body {
        StarBody::Both { required, optional } => Ok(StarBody::Both {
            required: copy_arms(alloc, required.as_slice())?,
            optional: copy_arms(alloc, optional.as_slice())?,
        }),
        StarBody::Either { left, right } => Ok(StarBody::Either {
            left: copy_arms(alloc, left.as_slice())?,
            right: copy_arms(alloc, right.as_slice())?,
        }),
    }
}

pub(crate) fn copy_star(alloc: Global, star: &Star) -> Result<Star, AllocError>
    ensures { IfOk result (λ copy. copy ≡ star.now) }
{
    Ok(Star {
        entity: copy_slot(alloc, &star.entity)?,
        side: star.side,
        body: copy_body(alloc, &star.body)?,
    })
}

pub(crate) fn copy_stars(alloc: Global, stars: &[Star]) -> Result<Items<Star>, AllocError>
    ensures { IfOk result (λ copies. copies ≡ stars.now) }
{
    let mut copies = Items::new(alloc);
    for star in stars {
        let copy = copy_star(alloc, star)?;
        copies.push(copy)?;
    }
    Ok(copies)
}
