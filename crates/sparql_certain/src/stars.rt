//! Every solution of stars binds the variables of their entities and of what is required of them.

ghost use Rattle.query_plan_meaning.specs.Stars.{arm_variables, arms_variables, body_certain, star_certain, stars_certain};
ghost use Rattle.sparql_certain.specs.Certain.{Has};
ghost use Rattle.sparql_certain.specs.Patterns.{Adds};

use crate::leaf_vars::LeafVars;
use crate::patterns::with_slot;
use query_plan_meaning::{Arm, Star, StarBody};
use sparql_variables::VarSet;
use sqlite_items::Items;

#[tactic(auto, using(crate::proofs::StarSets::arm_laws))]
fn with_arm(set: &VarSet, arm: &Arm) -> VarSet
    ensures { Adds set.now (arm_variables arm.now) result }
{
    let predicate = with_slot(set, &arm.pred);
    with_slot(&predicate, &arm.value)
}

#[tactic(auto, using(crate::proofs::StarSets::arms_laws))]
fn of_arms(arms: &[Arm]) -> VarSet
    ensures { Has result (arms_variables arms.now) }
{
    let mut set = VarSet::empty();
    for arm in arms {
        set = with_arm(&set, arm);
    }
    set
}

// What is required of a solution: all of the required arms, or those of either list.
#[tactic(auto, using(crate::proofs::StarSets::body_laws))]
fn of_body(body: &StarBody) -> VarSet
    ensures { Has result (body_certain body.now) }
{
    match body {
        StarBody::Both { required, .. } => of_arms(required.as_slice()),
        StarBody::Either { left, right } => {
            let left = of_arms(left.as_slice());
            let right = of_arms(right.as_slice());
            left.both(&right)
        }
    }
}

#[tactic(auto, using(crate::proofs::StarSets::star_laws))]
fn with_star(set: &VarSet, star: &Star) -> VarSet
    ensures { Adds set.now (star_certain star.now) result }
{
    let entity = with_slot(set, &star.entity);
    entity.either(&of_body(&star.body))
}

/// The variables that every solution of a star binds: its entity's, and those of what is required of it.
#[tactic(auto, using(crate::proofs::StarSets::alone_laws))]
pub fn star_certain(star: &Star) -> VarSet
    ensures { Has result (star_certain star.now) }
{
    with_star(&VarSet::empty(), star)
}

#[tactic(auto, using(crate::proofs::StarSets::stars_laws))]
fn of_stars(stars: &[Star]) -> VarSet
    ensures { Has result (stars_certain stars.now) }
{
    let mut set = VarSet::empty();
    for star in stars {
        set = with_star(&set, star);
    }
    set
}

impl LeafVars for Items<Star> {
    ghost use Rattle.query_plan_meaning.specs.Stars.{stars_leaf, stars_certain};
    ghost use Rattle.query_star_laws.specs.StarVariables.{stars-bind};

    ghost solutions = { λ stars g. stars_leaf g stars };

    ghost certain = { stars_certain };

    fn leaf_certain(&self) -> VarSet {
        of_stars(self.as_slice())
    }

    ghost bound = { λ stars g. stars-bind g stars };
}
