//! From a query as it is written to the algebra.

ghost use Rattle.std.specs.Prelude.{◌≡◌, IfOk};
ghost use Rattle.sparql_meaning.specs.Translation.{group, translated};
ghost use Rattle.sparql_meaning.specs.Translation as meaning;

use crate::gathering::gather;
use query_meaning::{Group, Pattern, Query, Syntax, Tree};
use sparql_copies::{copy_modifiers, copy_names};
use sparql_trees::whole;
use sqlite_items::Items;
use std::alloc::{AllocError, Global};

fn translated_group(alloc: Global, g: &Group) -> Result<Tree<Items<Pattern>>, AllocError>
    ensures { IfOk result (λ x. x ≡ meaning.whole (group g.now)) }
{
    let gathered = gather(alloc, g)?;
    let tree = whole(alloc, gathered)?;
    Ok(tree)
}

/// The query of the algebra (SPARQL 1.1 Query, section 18.2): patterns that follow one another are
/// one leaf, unions nest to the left, an optional group's own filters stand at its left join, and a
/// group's own filters apply to all of it.
pub fn translate(alloc: Global, s: &Syntax) -> Result<Query, AllocError>
    ensures { IfOk result (λ q. q ≡ translated s.now) }
{
    let names = copy_names(alloc, s.names.as_slice())?;
    let modifiers = copy_modifiers(alloc, &s.modifiers)?;
    let tree = translated_group(alloc, &s.group)?;
    Ok(Query {
        names,
        tree,
        modifiers,
    })
}
