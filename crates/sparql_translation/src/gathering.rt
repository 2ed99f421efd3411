//! The elements of a group, taken in order.

ghost use Rattle.std.specs.Prelude.{◌≡◌, IfOk, OnOk, map};
ghost use Rattle.sparql_meaning.specs.Translation.{group, part, take_part, take_parts};

use crate::elements::{take_written_condition, take_written_triples};
use crate::unions::take_groups;
use query_meaning::{Element, Group};
use sparql_meaning::Gathered;
use sparql_trees::{nothing_yet, take_optional};
use std::alloc::{AllocError, Global};

#[cycle(gathering)]
fn take_elements(
    alloc: Global,
    before: &mut Gathered,
    elements: &[Element],
) -> Result<(), AllocError>
    ensures { OnOk result (before.new ≡ take_parts before.old (map part elements.now)) }
{
    for element in elements {
        take_element(alloc, before, element)?;
    }
    Ok(())
}

#[cycle(gathering)]
#[tactic(auto, using(sparql_translation_laws::specs::Parts::element_laws))]
fn take_element(alloc: Global, before: &mut Gathered, element: &Element) -> Result<(), AllocError>
    ensures { OnOk result (before.new ≡ take_part before.old (part element.now)) }
{
    match element {
        Element::Triples(triples) => take_written_triples(alloc, before, triples.as_slice()),
        Element::Optional(inner) => {
            let gathered = gather(alloc, inner)?;
            take_optional(alloc, before, gathered)
        }
        Element::Unions(groups) => {
            let gathered = gather_all(alloc, groups.as_slice())?;
            take_groups(alloc, before, gathered)
        }
        Element::Condition(condition) => take_written_condition(alloc, before, condition),
    }
}

#[cycle(gathering)]
fn gather_all(alloc: Global, groups: &[Group]) -> Result<Vec<Gathered>, AllocError>
    ensures { IfOk result (λ all. all.items ≡ map group groups.now) }
{
    let mut all = Vec::new(alloc);
    for inner in groups {
        let gathered = gather(alloc, inner)?;
        all.push(gathered)?;
    }
    Ok(all)
}

/// What the elements of a group come to.
#[cycle(gathering)]
#[tactic(auto, using(sparql_translation_laws::specs::Parts::group_opened))]
pub(crate) fn gather(alloc: Global, g: &Group) -> Result<Gathered, AllocError>
    ensures { IfOk result (λ x. x ≡ group g.now) }
{
    let mut gathered = nothing_yet(alloc);
    take_elements(alloc, &mut gathered, g.elements.as_slice())?;
    Ok(gathered)
}
