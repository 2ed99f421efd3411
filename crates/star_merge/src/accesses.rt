//! How often a plan looks at a primary table.

ghost use Rattle.std.specs.Prelude.{◌≡◌};
ghost use Rattle.std.specs.List.{list_all};
ghost use Rattle.bags.specs.Bag.{total};
ghost use Rattle.sql_meaning.specs.Scripts.{up_to};
ghost use Rattle.query_plan_meaning.specs.declared.star.Arm.{Arm};
ghost use Rattle.query_plan_meaning.specs.Plans.{is_constant};
ghost use Rattle.query_merging_meaning.specs.Accesses.{star_accesses, accesses};

use pred_columns::LayoutFacts;
use query_meaning::{Slot, Tree};
use query_plan_meaning::{Arm, Plan, Star, StarBody};
use rdf_meaning::SideName;
use sqlite_items::Items;

fn is_constant(slot: &Slot) -> bool
    ensures { result ≡ is_constant slot.now }
{
    matches!(slot, Slot::Const(_))
}

fn are_constant(arms: &[Arm]) -> bool
    ensures { result ≡ list_all (λ (a : Arm). is_constant a.pred) arms.now }
{
    arms.iter().all(|arm| is_constant(&arm.pred))
}

// One where all predicates are constants, and else one for each column of the star's side.
#[tactic(auto, using(crate::proofs::Counted::star_laws))]
fn star_accesses(facts: &LayoutFacts, star: &Star) -> u64
    ensures { result ≡ star_accesses facts.now star.now }
{
    let constant = match &star.body {
        StarBody::Both { required, optional } => {
            are_constant(required.as_slice()) && are_constant(optional.as_slice())
        }
        StarBody::Either { left, right } => {
            are_constant(left.as_slice()) && are_constant(right.as_slice())
        }
    };
    if constant {
        return 1;
    }
    match star.side {
        SideName::Direct => facts.direct.count() as u64,
        SideName::Reverse => facts.reverse.count() as u64,
    }
}

fn stars_accesses(facts: &LayoutFacts, stars: &[Star]) -> u64
    ensures { result ≡ up_to 64 (total (star_accesses facts.now) stars.now) }
{
    let mut sum = 0u64;
    for star in stars {
        sum = sum.saturating_add(star_accesses(facts, star));
    }
    sum
}

#[tactic(auto, using(crate::proofs::Counted::tree_laws))]
fn tree_accesses(facts: &LayoutFacts, tree: &Tree<Items<Star>>) -> u64
    ensures { result ≡ up_to 64 (accesses facts.now tree.now) }
{
    match tree {
        Tree::Leaf(stars) => stars_accesses(facts, stars.as_slice()),
        Tree::Join(left, right) => {
            let left = tree_accesses(facts, left.get());
            left.saturating_add(tree_accesses(facts, right.get()))
        }
        Tree::LeftJoin(left, right, _) => {
            let left = tree_accesses(facts, left.get());
            left.saturating_add(tree_accesses(facts, right.get()))
        }
        Tree::Union(left, right) => {
            let left = tree_accesses(facts, left.get());
            left.saturating_add(tree_accesses(facts, right.get()))
        }
        Tree::Filter(_, inner) => tree_accesses(facts, inner.get()),
    }
}

/// How often the plan looks at a primary table: once for a star whose predicates are constants, and once for each column of the
/// side for a star whose predicate is a variable. The last `u64` stands for all larger counts.
pub fn star_count(plan: &Plan, facts: &LayoutFacts) -> u64
    ensures { result ≡ up_to 64 (accesses facts.now plan.now.tree) }
{
    tree_accesses(facts, &plan.tree)
}
