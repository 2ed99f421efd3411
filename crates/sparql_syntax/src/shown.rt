//! The variables that a query shows.

ghost use Rattle.std.specs.Prelude.{◌≡◌, ◌==◌, ◌∷◌, [], IfOk, OnOk, map};
ghost use Rattle.std.specs.List.{list_any};
ghost use Rattle.sparql_query_meaning.specs.Queries.{once, slot_variables, pattern_variables, patterns_variables, joined_lists, variables_of, shown_of};
ghost use Rattle.sparql_syntax.specs.Shown.{part_variables};

use query_meaning::{Element, Group, Pattern, Slot, VarId};
use sqlite_items::Items;
use std::alloc::{AllocError, Global};

#[tactic(auto, using(crate::specs::Shown::seen_laws))]
fn is_seen(seen: &[VarId], v: VarId) -> bool
    ensures { result ≡ list_any (λ x. x == v) seen.now }
{
    for x in seen {
        if x.number() == v.number() {
            return true;
        }
    }
    false
}

// Puts a variable last, unless it is there.
fn note(seen: &mut Items<VarId>, v: VarId) -> Result<(), AllocError>
    ensures { OnOk result (seen.new ≡ once seen.old (v ∷ [])) }
{
    if is_seen(seen.as_slice(), v) {
        return Ok(());
    }
    seen.push(v)
}

fn note_slot(seen: &mut Items<VarId>, slot: &Slot) -> Result<(), AllocError>
    ensures { OnOk result (seen.new ≡ once seen.old (slot_variables slot.now)) }
{
    match slot {
        Slot::Var(v) => note(seen, *v),
        Slot::Const(_) => Ok(()),
    }
}

#[tactic(auto, using(crate::specs::Shown::once_both))]
fn note_pattern(seen: &mut Items<VarId>, pattern: &Pattern) -> Result<(), AllocError>
    ensures { OnOk result (seen.new ≡ once seen.old (pattern_variables pattern.now)) }
{
    note_slot(seen, &pattern.s)?;
    note_slot(seen, &pattern.p)?;
    note_slot(seen, &pattern.o)?;
    Ok(())
}

#[tactic(auto, using(crate::specs::Shown::once_both))]
fn note_patterns(seen: &mut Items<VarId>, patterns: &[Pattern]) -> Result<(), AllocError>
    ensures { OnOk result (seen.new ≡ once seen.old (patterns_variables patterns.now)) }
{
    for pattern in patterns {
        note_pattern(seen, pattern)?;
    }
    Ok(())
}

#[cycle(variables)]
#[tactic(auto, using(crate::specs::Shown::variable_laws))]
fn note_elements(seen: &mut Items<VarId>, elements: &[Element]) -> Result<(), AllocError>
    ensures { OnOk result (seen.new ≡ once seen.old (joined_lists (map part_variables elements.now))) }
{
    for element in elements {
        note_element(seen, element)?;
    }
    Ok(())
}

#[cycle(variables)]
#[tactic(auto, using(crate::specs::Shown::variable_laws))]
fn note_groups(seen: &mut Items<VarId>, groups: &[Group]) -> Result<(), AllocError>
    ensures { OnOk result (seen.new ≡ once seen.old (joined_lists (map variables_of groups.now))) }
{
    for group in groups {
        note_group(seen, group)?;
    }
    Ok(())
}

#[cycle(variables)]
#[tactic(auto, using(crate::specs::Shown::variable_laws))]
fn note_element(seen: &mut Items<VarId>, element: &Element) -> Result<(), AllocError>
    ensures { OnOk result (seen.new ≡ once seen.old (part_variables element.now)) }
{
    match element {
        Element::Triples(patterns) => note_patterns(seen, patterns.as_slice()),
        Element::Optional(group) => note_group(seen, group),
        Element::Unions(groups) => note_groups(seen, groups.as_slice()),
        Element::Condition(_) => Ok(()),
    }
}

#[cycle(variables)]
#[tactic(auto, using(crate::specs::Shown::variable_laws))]
fn note_group(seen: &mut Items<VarId>, group: &Group) -> Result<(), AllocError>
    ensures { OnOk result (seen.new ≡ once seen.old (variables_of group.now)) }
{
    note_elements(seen, group.elements.as_slice())
}

#[tactic(auto, using(crate::specs::Shown::once_both))]
fn note_all(seen: &mut Items<VarId>, vs: &[VarId]) -> Result<(), AllocError>
    ensures { OnOk result (seen.new ≡ once seen.old vs.now) }
{
    for v in vs {
        note(seen, *v)?;
    }
    Ok(())
}

/// The variables behind SELECT, each at its first place; for `*` those of triple patterns, in order of the text.
pub(crate) fn shown_of(
    alloc: Global,
    shown: Option<Items<VarId>>,
    group: &Group,
) -> Result<Items<VarId>, AllocError>
    ensures { IfOk result (λ vs. vs ≡ shown_of shown group.now) }
{
    let mut seen = Items::new(alloc);
    match shown {
        Some(vs) => note_all(&mut seen, vs.as_slice())?,
        None => note_group(&mut seen, group)?,
    }
    Ok(seen)
}
