//! What is asked of the places of a star, by the ids of terms.

ghost use Rattle.std.specs.Prelude.{◌≡◌, ◌++◌, IfOk, OnOk};
ghost use Rattle.sql_gen_star_meaning.specs.Asked.{asked_maybe, asked_slot};
ghost use Rattle.sql_gen_star_solution_laws.specs.StarArms.{optional_arms, pred_columns, pred_number, required_arms, required_vars};
ghost use Rattle.sql_gen_star_out_laws.specs.StarOuts.{told_id};

use pred_columns::{Columns, IdPair};
use query_meaning::{Slot, VarId};
use query_plan_meaning::Arm;
use rdf_meaning::Term;
use sql_gen_star_meaning::{Asked, StarArm};
use sql_gen_stars::asked_vars;
use sql_gen_steps::has;
use sqlite_items::Items;
use std::alloc::{AllocError, Global};

/// The id that is told of a term: that of the first pair with an equal term, or 0 where there is none.
pub fn told_id(ids: &[IdPair], term: &Term) -> u32
    ensures { result ≡ told_id ids.now term.now }
{
    for pair in ids {
        if pair.term == *term {
            return pair.id;
        }
    }
    0
}

/// What a required place asks where these variables are bound before: a constant's id, the id that a variable bound before
/// has, or any id for a new variable.
pub fn asked_slot(ids: &[IdPair], before: &[VarId], slot: &Slot) -> Asked
    ensures { result ≡ asked_slot (told_id ids.now) before.now slot.now }
{
    match slot {
        Slot::Const(term) => Asked::Constant(told_id(ids, term)),
        Slot::Var(v) => {
            if has(before, *v) {
                Asked::Again(*v)
            } else {
                Asked::New(*v)
            }
        }
    }
}

/// What the value of an optional arm asks.
fn asked_maybe(ids: &[IdPair], slot: &Slot) -> Asked
    ensures { result ≡ asked_maybe (told_id ids.now) slot.now }
{
    match slot {
        Slot::Const(term) => Asked::Constant(told_id(ids, term)),
        Slot::Var(v) => Asked::Maybe(*v),
    }
}

/// The id of a predicate; one that is a variable has none.
fn pred_number(ids: &[IdPair], pred: &Slot) -> u32
    ensures { result ≡ pred_number (told_id ids.now) pred.now }
{
    match pred {
        Slot::Const(term) => told_id(ids, term),
        Slot::Var(_) => 0,
    }
}

/// The columns in which a predicate may stand.
fn pred_columns(alloc: Global, columns: &Columns, pred: &Slot) -> Result<Items<u32>, AllocError>
    ensures { IfOk result (λ cs. cs ≡ pred_columns columns.now pred.now) }
{
    match pred {
        Slot::Const(term) => Items::from_slice(alloc, columns.candidates(&term.text).as_slice()),
        Slot::Var(_) => Ok(Items::new(alloc)),
    }
}

/// Puts the arms that must have a value behind those made: the first one finds the variables `before` bound, each later one
/// those that the arms in front of it bind as well. Answered are the variables bound behind all of them. It refuses for want of
/// memory alone, and may then have put some of the arms there.
pub fn required_arms(
    alloc: Global,
    columns: &Columns,
    ids: &[IdPair],
    before: Vec<VarId>,
    arms: &[Arm],
    made: &mut Items<StarArm>,
) -> Result<Vec<VarId>, AllocError>
    ensures arms { OnOk result (made.new ≡ made.old ++ required_arms columns.now (told_id ids.now) before.items arms.now) }
    ensures variables { IfOk result (λ vs. vs.items ≡ required_vars (told_id ids.now) before.items arms.now) }
{
    let mut bound = before;
    for arm in arms {
        let asked = asked_slot(ids, bound.as_slice(), &arm.value);
        made.push(StarArm {
            pred: pred_number(ids, &arm.pred),
            columns: pred_columns(alloc, columns, &arm.pred)?,
            asked,
        })?;
        bound = asked_vars(alloc, asked, bound.as_slice())?;
    }
    Ok(bound)
}

/// Puts the arms that may have a value behind those made: each one's variable is its own. It refuses for want of memory alone,
/// and may then have put some of the arms there.
pub fn optional_arms(
    alloc: Global,
    columns: &Columns,
    ids: &[IdPair],
    arms: &[Arm],
    made: &mut Items<StarArm>,
) -> Result<(), AllocError>
    ensures { OnOk result (made.new ≡ made.old ++ optional_arms columns.now (told_id ids.now) arms.now) }
{
    for arm in arms {
        made.push(StarArm {
            pred: pred_number(ids, &arm.pred),
            columns: pred_columns(alloc, columns, &arm.pred)?,
            asked: asked_maybe(ids, &arm.value),
        })?;
    }
    Ok(())
}
