//! Merging the stars of one leaf, and those of two.

ghost use Rattle.std.specs.Prelude.{◌≡◌, ◌∷◌, ◌++◌, [], IfOk, OnOk};
ghost use Rattle.query_plan_meaning.specs.Plans.{optional_of};
ghost use Rattle.query_merging_meaning.specs.Merging.{required_of, with_arms_of, put, merged_leaf, with_optional_arm, merged_optional, either_of, merged_union};

use crate::copies::{copy_arm, copy_arms, copy_star, copy_stars};
use crate::places::{place_of_one, place_that_takes};
use crate::plain::{is_new_in, lone_star, same_entity};
use pred_columns::Spilled;
use query_plan_meaning::{Arm, Star, StarBody};
use sparql_copies::copy_slot;
use sqlite_items::Items;
use std::alloc::{AllocError, Global};

fn required_of(body: &StarBody) -> &[Arm]
    ensures { result.now ≡ required_of body.now }
{
    match body {
        StarBody::Both { required, .. } => required.as_slice(),
        StarBody::Either { .. } => &[],
    }
}

fn optional_of(body: &StarBody) -> &[Arm]
    ensures { result.now ≡ optional_of body.now }
{
    match body {
        StarBody::Both { optional, .. } => optional.as_slice(),
        StarBody::Either { .. } => &[],
    }
}

// The star with the required arms of the other behind its own.
fn with_arms_of(alloc: Global, star: &Star, other: &Star) -> Result<Star, AllocError>
    ensures { IfOk result (λ both. both ≡ with_arms_of star.now other.now) }
{
    let entity = copy_slot(alloc, &star.entity)?;
    let mut required = copy_arms(alloc, required_of(&star.body))?;
    required.append(copy_arms(alloc, required_of(&other.body))?)?;
    Ok(Star {
        entity,
        side: star.side,
        body: StarBody::Both {
            required,
            optional: Items::new(alloc),
        },
    })
}

// Puts a star into the first one with which it is one, or behind all.
fn put(
    alloc: Global,
    spilled: &Spilled,
    merged: &mut Items<Star>,
    new: &Star,
) -> Result<(), AllocError>
    ensures { OnOk result (merged.new ≡ put spilled.now merged.old new.now) }
{
    match place_of_one(spilled, merged.as_slice(), new) {
        Some(at) => {
            let star = with_arms_of(alloc, &merged.as_slice()[at], new)?;
            merged.set(at, star);
            Ok(())
        }
        None => {
            let star = copy_star(alloc, new)?;
            merged.push(star)?;
            Ok(())
        }
    }
}

/// The stars of a leaf, where plain ones on the same entity and side have become one.
pub(crate) fn merged_leaf(
    alloc: Global,
    spilled: &Spilled,
    stars: &[Star],
) -> Result<Items<Star>, AllocError>
    ensures { IfOk result (λ merged. merged ≡ merged_leaf spilled.now stars.now) }
{
    let mut merged = Items::new(alloc);
    for star in stars {
        put(alloc, spilled, &mut merged, star)?;
    }
    Ok(merged)
}

// The star with one more optional arm.
fn with_optional_arm(alloc: Global, star: &Star, arm: &Arm) -> Result<Star, AllocError>
    ensures { IfOk result (λ more. more ≡ with_optional_arm star.now arm.now) }
{
    let entity = copy_slot(alloc, &star.entity)?;
    let required = copy_arms(alloc, required_of(&star.body))?;
    let mut optional = copy_arms(alloc, optional_of(&star.body))?;
    let arm = copy_arm(alloc, arm)?;
    optional.push(arm)?;
    Ok(Star {
        entity,
        side: star.side,
        body: StarBody::Both { required, optional },
    })
}

/// The stars of a leaf with the one arm of an optional part besides, where the part is a plain star that may go into one of them.
#[tactic(auto, using(crate::proofs::Putting::optional_laws))]
pub(crate) fn merged_optional(
    alloc: Global,
    spilled: &Spilled,
    stars: &[Star],
    part: &[Star],
) -> Result<Option<Items<Star>>, AllocError>
    ensures { IfOk result (λ merged. merged ≡ merged_optional spilled.now stars.now part.now) }
{
    let Some(lone) = lone_star(spilled, part) else {
        return Ok(None);
    };
    match required_of(&lone.body) {
        [] => Ok(None),
        [arm] => {
            if !is_new_in(stars, &arm.value) {
                return Ok(None);
            }
            let Some(at) = place_that_takes(spilled, stars, lone) else {
                return Ok(None);
            };
            let star = with_optional_arm(alloc, &stars[at], arm)?;
            let mut merged = copy_stars(alloc, stars)?;
            merged.set(at, star);
            Ok(Some(merged))
        }
        [_, _, ..] => Ok(None),
    }
}

// A leaf of one star with the required arms of both, either of which a solution may take.
fn either_of(alloc: Global, star: &Star, other: &Star) -> Result<Items<Star>, AllocError>
    ensures { IfOk result (λ merged. merged ≡ either_of star.now other.now) }
{
    let entity = copy_slot(alloc, &star.entity)?;
    let left = copy_arms(alloc, required_of(&star.body))?;
    let right = copy_arms(alloc, required_of(&other.body))?;
    let mut merged = Items::new(alloc);
    merged.push(Star {
        entity,
        side: star.side,
        body: StarBody::Either { left, right },
    })?;
    Ok(merged)
}

/// The leaf of a union, where both sides are a plain star on the same entity and side.
#[tactic(auto, using(crate::proofs::Putting::union_laws))]
pub(crate) fn merged_union(
    alloc: Global,
    spilled: &Spilled,
    left: &[Star],
    right: &[Star],
) -> Result<Option<Items<Star>>, AllocError>
    ensures { IfOk result (λ merged. merged ≡ merged_union spilled.now left.now right.now) }
{
    let Some(star) = lone_star(spilled, left) else {
        return Ok(None);
    };
    let Some(other) = lone_star(spilled, right) else {
        return Ok(None);
    };
    if same_entity(star, other) {
        Ok(Some(either_of(alloc, star, other)?))
    } else {
        Ok(None)
    }
}
