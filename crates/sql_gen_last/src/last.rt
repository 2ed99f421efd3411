//! The last SELECT, and the step of DISTINCT.

ghost use Rattle.std.specs.Prelude.{◌≡◌, IfOk};
ghost use Rattle.std.specs.List.{list_all};
ghost use Rattle.query_meaning.specs.declared.modifiers.Key.{Key};
ghost use Rattle.sql_gen_step_laws.specs.StepSelects.{has};
ghost use Rattle.sql_gen_last_laws.specs.LastSelect.{skip_of, last_core};
ghost use Rattle.sql_gen_last_laws.specs.DistinctSelect.{distinct_core, is_distinct_first, repeated};

use crate::keys::{all_keys, sql_keys, variables};
use crate::shown::last_items;
use query_meaning::{Key, Modifiers, VarId};
use sql_gen_steps::{Carrier, first_source, has, own_items, term_joins};
use sql_meaning::Core;
use sqlite_items::Items;
use std::alloc::{AllocError, Global};

/// A step whose rows carry the solutions, those of its variables that each row binds, and the name of the table of terms.
#[derive(Clone, Copy)]
pub struct Solutions<'a> {
    pub step: Carrier<'a>,
    pub certain: &'a [VarId],
    pub terms: &'a str,
}

// Nothing where nothing is skipped.
fn skip_of(skip: u64) -> Option<u64>
    ensures { result ≡ skip_of skip }
{
    if skip == 0 { None } else { Some(skip) }
}

// The last SELECT, with or without DISTINCT.
fn select(
    alloc: Global,
    distinct: bool,
    solutions: Solutions,
    modifiers: &Modifiers,
) -> Result<Core, AllocError>
    ensures { IfOk result (λ c. c ≡ last_core solutions.entry.step.name.now solutions.entry.terms.now solutions.entry.step.variables.now solutions.entry.certain.now
        (record { shown = modifiers.now.shown; distinct = distinct; keys = modifiers.now.keys; skip = modifiers.now.skip; most = modifiers.now.most })) }
{
    let shown = modifiers.shown.as_slice();
    let keys = all_keys(alloc, modifiers.keys.as_slice(), shown)?;
    let asked = variables(alloc, &keys)?;
    let step = solutions.step;
    Ok(Core {
        distinct,
        items: last_items(alloc, shown)?,
        from: Some(first_source(alloc, step.name)?),
        joins: term_joins(alloc, solutions.terms, step.variables, &asked)?,
        condition: None,
        keys: sql_keys(alloc, solutions.certain, &keys)?,
        most: modifiers.most,
        skip: skip_of(modifiers.skip),
    })
}

/// The last SELECT: the terms of the shown variables, in the order of the keys (SPARQL 1.1 Query, section 15). It refuses
/// for want of memory alone.
pub fn last_core(
    alloc: Global,
    solutions: Solutions,
    modifiers: &Modifiers,
) -> Result<Core, AllocError>
    ensures { IfOk result (λ c. c ≡ last_core solutions.entry.step.name.now solutions.entry.terms.now solutions.entry.step.variables.now solutions.entry.certain.now modifiers.now) }
{
    select(alloc, modifiers.distinct, solutions, modifiers)
}

/// The last SELECT over the step of DISTINCT: the same, without DISTINCT. It refuses for want of memory alone.
pub fn repeated_core(
    alloc: Global,
    solutions: Solutions,
    modifiers: &Modifiers,
) -> Result<Core, AllocError>
    ensures { IfOk result (λ c. c ≡ last_core solutions.entry.step.name.now solutions.entry.terms.now solutions.entry.step.variables.now solutions.entry.certain.now (repeated modifiers.now)) }
{
    select(alloc, false, solutions, modifiers)
}

// Whether each key is a shown variable.
fn are_shown(shown: &[VarId], keys: &[Key]) -> bool
    ensures { result ≡ list_all (λ (k : Key). has shown.now k.var) keys.now }
{
    keys.iter().all(|key| has(shown, key.var))
}

/// Whether DISTINCT may be taken before the order: it is asked, and each key is a shown variable.
pub fn is_distinct_first(modifiers: &Modifiers) -> bool
    ensures { result ≡ is_distinct_first modifiers.now }
{
    modifiers.distinct && are_shown(modifiers.shown.as_slice(), modifiers.keys.as_slice())
}

/// The step of DISTINCT: the different rows of a step, with the columns of the shown variables (SPARQL 1.1 Query, section
/// 15.3). It refuses for want of memory alone.
pub fn distinct_core(alloc: Global, step: Carrier, shown: &[VarId]) -> Result<Core, AllocError>
    ensures { IfOk result (λ c. c ≡ distinct_core step.entry.name.now step.entry.variables.now shown.now) }
{
    Ok(Core {
        distinct: true,
        items: own_items(alloc, step.variables, shown)?,
        from: Some(first_source(alloc, step.name)?),
        joins: Items::new(alloc),
        condition: None,
        keys: Items::new(alloc),
        most: None,
        skip: None,
    })
}
