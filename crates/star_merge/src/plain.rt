//! Which stars may be merged.

ghost use Rattle.std.specs.Prelude.{◌≡◌};
ghost use Rattle.std.specs.List.{list_any, list_all};
ghost use Rattle.std.specs.Option.{option_copied};
ghost use Rattle.rdf_meaning.specs.Terms.{same_term, is_empty};
ghost use Rattle.query_eval_meaning.specs.Leaf.{is_variable};
ghost use Rattle.query_plan_meaning.specs.Merged.{is_required_only};
ghost use Rattle.query_plan_meaning.specs.Stars.{arms_of, arms_variables, body_variables, star_variables, stars_variables};
ghost use Rattle.query_merging_meaning.specs.Merging.{spilled_on, is_constant_beside, is_plain_arm, is_plain, same_slot, same_side, same_entity, required_of, is_both, are_one, lone_star, is_new_in, takes_arms_of};

use pred_columns::Spilled;
use query_meaning::{Slot, VarId};
use query_plan_meaning::{Arm, Star, StarBody};
use rdf_meaning::{SideName, Term};

fn spilled_on(spilled: &Spilled, side: SideName) -> &[Term]
    ensures { result.now ≡ spilled_on spilled.now side }
{
    match side {
        SideName::Direct => spilled.direct.as_slice(),
        SideName::Reverse => spilled.reverse.as_slice(),
    }
}

fn is_among(term: &Term, terms: &[Term]) -> bool
    ensures { result ≡ list_any (same_term term.now) terms.now }
{
    terms.iter().any(|other| term == other)
}

fn is_constant_beside(terms: &[Term], slot: &Slot) -> bool
    ensures { result ≡ is_constant_beside terms.now slot.now }
{
    match slot {
        Slot::Const(term) => !is_among(term, terms),
        Slot::Var(_) => false,
    }
}

fn are_plain(spilled: &Spilled, side: SideName, arms: &[Arm]) -> bool
    ensures { result ≡ list_all (is_plain_arm spilled.now side) arms.now }
{
    arms.iter().all(|arm| is_constant_beside(spilled_on(spilled, side), &arm.pred))
}

// Whether the predicates are constants that aren't spilled on the star's side.
#[tactic(auto, using(crate::proofs::Forms::plain_laws))]
fn is_plain(spilled: &Spilled, star: &Star) -> bool
    ensures { result ≡ is_plain spilled.now star.now }
{
    match &star.body {
        StarBody::Both { required, optional } => {
            are_plain(spilled, star.side, required.as_slice())
                && are_plain(spilled, star.side, optional.as_slice())
        }
        StarBody::Either { left, right } => {
            are_plain(spilled, star.side, left.as_slice())
                && are_plain(spilled, star.side, right.as_slice())
        }
    }
}

fn same_slot(one: &Slot, other: &Slot) -> bool
    ensures { result ≡ same_slot one.now other.now }
{
    match one {
        Slot::Var(v) => matches!(other, Slot::Var(w) if *v == *w),
        Slot::Const(s) => matches!(other, Slot::Const(t) if s == t),
    }
}

fn same_side(one: SideName, other: SideName) -> bool
    ensures { result ≡ same_side one other }
{
    match one {
        SideName::Direct => matches!(other, SideName::Direct),
        SideName::Reverse => matches!(other, SideName::Reverse),
    }
}

/// Whether the stars are on one entity and one side.
pub(crate) fn same_entity(star: &Star, other: &Star) -> bool
    ensures { result ≡ same_entity star.now other.now }
{
    same_slot(&star.entity, &other.entity) && same_side(star.side, other.side)
}

fn is_empty(arms: &[Arm]) -> bool
    ensures { result ≡ is_empty arms.now }
{
    match arms {
        [] => true,
        [_, ..] => false,
    }
}

fn is_required_only(body: &StarBody) -> bool
    ensures { result ≡ is_required_only body.now }
{
    match body {
        StarBody::Both { required, optional } => {
            !is_empty(required.as_slice()) && is_empty(optional.as_slice())
        }
        StarBody::Either { .. } => false,
    }
}

fn is_both(body: &StarBody) -> bool
    ensures { result ≡ is_both body.now }
{
    match body {
        StarBody::Both { .. } => true,
        StarBody::Either { .. } => false,
    }
}

/// Whether both stars are plain and of required arms alone, on one entity and one side.
pub(crate) fn are_one(spilled: &Spilled, star: &Star, other: &Star) -> bool
    ensures { result ≡ are_one spilled.now star.now other.now }
{
    same_entity(star, other)
        && ((is_plain(spilled, star) && is_plain(spilled, other))
            && (is_required_only(&star.body) && is_required_only(&other.body)))
}

/// Whether the star is plain, has no second list, and is on the other's entity and side.
pub(crate) fn takes_arms_of(spilled: &Spilled, star: &Star, other: &Star) -> bool
    ensures { result ≡ takes_arms_of spilled.now star.now other.now }
{
    same_entity(star, other) && (is_plain(spilled, star) && is_both(&star.body))
}

/// The one star of a leaf, where it is plain and of required arms alone.
pub(crate) fn lone_star<'a>(spilled: &Spilled, stars: &'a [Star]) -> Option<&'a Star>
    ensures { option_copied result ≡ lone_star spilled.now stars.now }
{
    match stars {
        [] => None,
        [star] => {
            if is_plain(spilled, star) && is_required_only(&star.body) {
                Some(star)
            } else {
                None
            }
        }
        [_, _, ..] => None,
    }
}

fn is_variable(variable: VarId, slot: &Slot) -> bool
    ensures { result ≡ is_variable variable slot.now }
{
    matches!(slot, Slot::Var(other) if variable == *other)
}

fn stands_in_arms(arms: &[Arm], v: VarId) -> bool
    ensures { result ≡ arms_variables arms.now v }
{
    arms.iter().any(|arm| is_variable(v, &arm.pred) || is_variable(v, &arm.value))
}

fn stands_in_body(body: &StarBody, v: VarId) -> bool
    ensures { result ≡ body_variables body.now v }
{
    match body {
        StarBody::Both { required, optional } => {
            stands_in_arms(required.as_slice(), v) || stands_in_arms(optional.as_slice(), v)
        }
        StarBody::Either { left, right } => {
            stands_in_arms(left.as_slice(), v) || stands_in_arms(right.as_slice(), v)
        }
    }
}

fn stands_in(stars: &[Star], v: VarId) -> bool
    ensures { result ≡ stars_variables stars.now v }
{
    stars.iter().any(|star| is_variable(v, &star.entity) || stands_in_body(&star.body, v))
}

/// Whether it is a variable that stands nowhere in the leaf.
pub(crate) fn is_new_in(stars: &[Star], slot: &Slot) -> bool
    ensures { result ≡ is_new_in stars.now slot.now }
{
    match slot {
        Slot::Var(v) => !stands_in(stars, *v),
        Slot::Const(_) => false,
    }
}
