//! The stars of a leaf.

ghost use Rattle.std.specs.Prelude.{◌≡◌, ◌<◌, true, [], ◌∷◌, IfOk};
ghost use Rattle.query_eval_meaning.specs.Width.{slot_in_width};
ghost use Rattle.query_plan_meaning.specs.Merged.{both};
ghost use Rattle.query_plan_meaning.specs.Stars.{star_in_width};
ghost use Rattle.query_flow_meaning.specs.Planned.{star_of};
ghost use Rattle.exec_tree.specs.Plans.{IsPlannedLeaf};

use flow_tree::{Choice, Method, choices};
use pred_columns::Counts;
use query_meaning::{Pattern, Slot, VarId};
use query_plan_meaning::{Arm, Star, StarBody};
use rdf_meaning::SideName;
use sqlite_items::Items;
use std::alloc::{AllocError, Global};

// An equal slot; a variable's number is known to be below the width.
#[tactic(auto, using(crate::proofs::Places::variable_has_place))]
fn copied(alloc: Global, slot: &Slot) -> Result<Slot, AllocError>
    ensures equal { IfOk result (λ copy. copy ≡ slot.now) }
    ensures place { IfOk result (λ copy. slot_in_width copy ≡ true) }
{
    match slot {
        Slot::Var(v) => Ok(Slot::Var(VarId::new(v.number()))),
        Slot::Const(term) => Ok(Slot::Const(term.copy(alloc)?)),
    }
}

// A star of one required arm.
fn of_arm(alloc: Global, entity: Slot, side: SideName, arm: Arm) -> Result<Star, AllocError>
    ensures { IfOk result (λ star. star ≡ both entity side (arm ∷ []) []) }
{
    let mut required = Items::new(alloc);
    required.push(arm)?;
    Ok(Star {
        entity,
        side,
        body: StarBody::Both {
            required,
            optional: Items::new(alloc),
        },
    })
}

// The star on the pattern's object where it is looked up from there, and else on its subject.
#[tactic(auto, using(crate::proofs::Places::star_laws))]
fn star_of(alloc: Global, choice: &Choice<'_>) -> Result<Star, AllocError>
    ensures equal { IfOk result (λ star. star ≡ star_of choice.now) }
    ensures width { IfOk result (λ star. star_in_width star ≡ true) }
{
    let pattern = choice.pattern.number;
    let subject = copied(alloc, &choice.pattern.s)?;
    let pred = copied(alloc, &choice.pattern.p)?;
    let object = copied(alloc, &choice.pattern.o)?;
    match choice.method {
        Method::Direct | Method::Scan => {
            let value = object;
            let arm = Arm {
                pattern,
                pred,
                value,
            };
            of_arm(alloc, subject, SideName::Direct, arm)
        }
        Method::Reverse => {
            let value = subject;
            let arm = Arm {
                pattern,
                pred,
                value,
            };
            of_arm(alloc, object, SideName::Reverse, arm)
        }
    }
}

/// A star for each pattern of a leaf, in the order of the leaf's flow.
///
/// # Errors
///
/// Want of memory.
pub(crate) fn plan_leaf(
    alloc: Global,
    patterns: &[Pattern],
    counts: &Counts,
) -> Result<Items<Star>, AllocError>
    requires { counts.now.triples < 0xffffffffffffffff }
    ensures { IfOk result (λ stars. IsPlannedLeaf counts.now patterns.now stars) }
{
    let choices = choices(alloc, patterns, counts)?;
    let mut stars = Items::new(alloc);
    for choice in &choices {
        let star = star_of(alloc, choice)?;
        stars.push(star)?;
    }
    Ok(stars)
}
