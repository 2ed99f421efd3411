//! The constants of a query's patterns.

ghost use Rattle.std.specs.Prelude.{◌≡◌, IfOk, OnOk, []};
ghost use Rattle.sparql_meaning.specs.Constants.{kept_once, tree_constants, pattern_constants, slot_constants};
ghost use Rattle.std.specs.List.{flat_map};

use crate::kept::Kept;
use query_meaning::{Pattern, Query, Slot, Tree};
use rdf_meaning::Term;
use sqlite_items::Items;
use std::alloc::{AllocError, Global};

#[tactic(auto, using(crate::specs::Once::once_laws))]
fn keep_slot(alloc: Global, slot: &Slot, kept: &mut Kept) -> Result<(), AllocError>
    ensures { OnOk result (kept.new ≡ kept_once kept.old (slot_constants slot.now)) }
{
    match slot {
        Slot::Var(_) => Ok(()),
        Slot::Const(term) => {
            kept.keep(alloc, term)?;
            Ok(())
        }
    }
}

#[tactic(auto, using(crate::specs::Once::once_laws))]
fn keep_pattern(alloc: Global, pattern: &Pattern, kept: &mut Kept) -> Result<(), AllocError>
    ensures { OnOk result (kept.new ≡ kept_once kept.old (pattern_constants pattern.now)) }
{
    keep_slot(alloc, &pattern.s, kept)?;
    keep_slot(alloc, &pattern.p, kept)?;
    keep_slot(alloc, &pattern.o, kept)?;
    Ok(())
}

#[tactic(auto, using(crate::specs::Once::once_laws))]
fn keep_patterns(alloc: Global, patterns: &[Pattern], kept: &mut Kept) -> Result<(), AllocError>
    ensures { OnOk result (kept.new ≡ kept_once kept.old (flat_map pattern_constants patterns.now)) }
{
    for pattern in patterns {
        keep_pattern(alloc, pattern, kept)?;
    }
    Ok(())
}

fn keep_tree(alloc: Global, tree: &Tree<Items<Pattern>>, kept: &mut Kept) -> Result<(), AllocError>
    ensures { OnOk result (kept.new ≡ kept_once kept.old (tree_constants tree.now)) }
{
    match tree {
        Tree::Leaf(patterns) => {
            keep_patterns(alloc, patterns.as_slice(), kept)?;
        }
        Tree::Join(a, b) => {
            keep_tree(alloc, a.get(), kept)?;
            keep_tree(alloc, b.get(), kept)?;
        }
        Tree::LeftJoin(a, b, _) => {
            keep_tree(alloc, a.get(), kept)?;
            keep_tree(alloc, b.get(), kept)?;
        }
        Tree::Union(a, b) => {
            keep_tree(alloc, a.get(), kept)?;
            keep_tree(alloc, b.get(), kept)?;
        }
        Tree::Filter(_, a) => {
            keep_tree(alloc, a.get(), kept)?;
        }
    }
    Ok(())
}

/// The constants of the patterns, each once, in order of the text.
pub fn constants(alloc: Global, query: &Query) -> Result<Vec<Term>, AllocError>
    ensures { IfOk result (λ terms. terms.items ≡ kept_once [] (tree_constants query.now.tree)) }
{
    let mut kept = Kept::new(alloc);
    keep_tree(alloc, &query.tree, &mut kept)?;
    let terms = kept.into_terms(alloc)?;
    Ok(terms)
}
