//! Patterns numbered in order of the text.

ghost use Rattle.std.specs.Prelude.{◌≡◌, ◌+◌, IfOk, OnOk, map, length};
ghost use Rattle.sparql_query_meaning.specs.Queries.{with_number, number_patterns, number_all, numbered_group};
ghost use Rattle.sparql_syntax.specs.Numbering.{number_part, number_whole};

use query_meaning::{Element, Group, Pattern};
use sparql_copies::{copy_slot, copy_truth};
use sqlite_items::Items;
use std::alloc::{AllocError, Global};

fn with_number(alloc: Global, pattern: &Pattern, number: u32) -> Result<Pattern, AllocError>
    ensures { IfOk result (λ p. p ≡ with_number number pattern.now) }
{
    Ok(Pattern {
        number,
        s: copy_slot(alloc, &pattern.s)?,
        p: copy_slot(alloc, &pattern.p)?,
        o: copy_slot(alloc, &pattern.o)?,
    })
}

// A text has fewer patterns than bytes, so that a number that is too great would be want of memory.
fn after(number: u32) -> Result<u32, AllocError>
    ensures { IfOk result (λ n. n ≡ number + 1) }
{
    number.checked_add(1).ok_or(AllocError)
}

#[tactic(auto, using(crate::specs::Numbering::number_laws))]
fn number_patterns(
    alloc: Global,
    patterns: &[Pattern],
    next: &mut u32,
) -> Result<Items<Pattern>, AllocError>
    ensures made { IfOk result (λ ps. ps ≡ number_patterns next.old patterns.now) }
    ensures after { OnOk result (next.new ≡ next.old + length patterns.now) }
{
    let mut made = Items::new(alloc);
    for pattern in patterns {
        let numbered = with_number(alloc, pattern, *next)?;
        made.push(numbered)?;
        *next = after(*next)?;
    }
    Ok(made)
}

#[cycle(numbering)]
#[tactic(auto, using(crate::specs::Numbering::number_laws))]
fn number_elements(
    alloc: Global,
    elements: &[Element],
    next: &mut u32,
) -> Result<Items<Element>, AllocError>
    ensures made { IfOk result (λ xs. xs ≡ (number_all (map number_part elements.now) next.old).made) }
    ensures after { OnOk result (next.new ≡ (number_all (map number_part elements.now) next.old).after) }
{
    let mut made = Items::new(alloc);
    for element in elements {
        let numbered = number_element(alloc, element, next)?;
        made.push(numbered)?;
    }
    Ok(made)
}

#[cycle(numbering)]
#[tactic(auto, using(crate::specs::Numbering::number_laws))]
fn number_groups(
    alloc: Global,
    groups: &[Group],
    next: &mut u32,
) -> Result<Items<Group>, AllocError>
    ensures made { IfOk result (λ xs. xs ≡ (number_all (map number_whole groups.now) next.old).made) }
    ensures after { OnOk result (next.new ≡ (number_all (map number_whole groups.now) next.old).after) }
{
    let mut made = Items::new(alloc);
    for group in groups {
        let numbered = number_group(alloc, group, next)?;
        made.push(numbered)?;
    }
    Ok(made)
}

#[cycle(numbering)]
#[tactic(auto, using(crate::specs::Numbering::number_laws))]
fn number_element(alloc: Global, element: &Element, next: &mut u32) -> Result<Element, AllocError>
    ensures made { IfOk result (λ x. x ≡ (number_part element.now next.old).made) }
    ensures after { OnOk result (next.new ≡ (number_part element.now next.old).after) }
{
    match element {
        Element::Triples(patterns) => {
            let numbered = number_patterns(alloc, patterns.as_slice(), next)?;
            Ok(Element::Triples(numbered))
        }
        Element::Optional(group) => {
            let numbered = number_group(alloc, group, next)?;
            Ok(Element::Optional(numbered))
        }
        Element::Unions(groups) => {
            let numbered = number_groups(alloc, groups.as_slice(), next)?;
            Ok(Element::Unions(numbered))
        }
        Element::Condition(condition) => {
            let copy = copy_truth(alloc, condition)?;
            Ok(Element::Condition(copy))
        }
    }
}

#[cycle(numbering)]
#[tactic(auto, using(crate::specs::Numbering::number_laws))]
fn number_group(alloc: Global, group: &Group, next: &mut u32) -> Result<Group, AllocError>
    ensures made { IfOk result (λ x. x ≡ (number_whole group.now next.old).made) }
    ensures after { OnOk result (next.new ≡ (number_whole group.now next.old).after) }
{
    let elements = number_elements(alloc, group.elements.as_slice(), next)?;
    Ok(Group { elements })
}

/// The group with its patterns numbered from 1 in order of the text.
pub(crate) fn numbered_group(alloc: Global, group: &Group) -> Result<Group, AllocError>
    ensures { IfOk result (λ x. x ≡ numbered_group group.now) }
{
    let mut next = 1;
    number_group(alloc, group, &mut next)
}
