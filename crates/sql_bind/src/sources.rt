//! The sources of a SELECT, each with its ON.

ghost use Rattle.std.specs.Prelude.{◌≡◌, Ok, Err, IfOk, IfErr, OnOk};
ghost use Rattle.sql_rows_meaning.specs.declared.fault.FaultKind.{FaultKind};
ghost use Rattle.sql_rows_meaning.specs.Scopes.{schemas_of};
ghost use Rattle.sql_rows_meaning.specs.Binding.{check_source, check_from, check_joins};
ghost use Rattle.sql_bind_laws.specs.Places.{seen_of, number_of, first_sources, all_sources, place_from, place_joins};
ghost use Rattle.sql_bind_names.specs.declared.stop.Stop.TheVariants as stop;
ghost use Rattle.sql_bind.specs.Parts.{IsAdded};

use sql_bind_expressions::bind_truth;
use sql_bind_meaning::BoundJoin;
use sql_bind_names::{Known, Sources, Stop};
use sql_meaning::{JoinTo, Source};
use sql_rows_meaning::FaultKind;
use sqlite_items::Items;
use std::alloc::Global;

/// The sources so far, and the joins.
#[derive(Drop)]
pub(crate) struct Joined<'a> {
    pub(crate) sources: Sources<'a>,
    pub(crate) joins: Items<BoundJoin>,
}

/// FROM's relation and source.
#[derive(Drop)]
pub(crate) struct First<'a> {
    pub(crate) from: Option<usize>,
    pub(crate) sources: Sources<'a>,
}

/// Adds a table or an earlier step under a new alias, and gives its number. That it is there goes before its alias.
#[tactic(auto, using(crate::proofs::SourceSteps::source_rules))]
pub(crate) fn add_source<'a>(
    alloc: Global,
    known: &'a Known,
    sources: &mut Sources<'a>,
    s: &Source,
) -> Result<usize, Stop>
    ensures added { OnOk result (IsAdded known.now s.now sources.old sources.new) }
    ensures number { IfOk result (λ number. number ≡ number_of known.now s.now.table) }
    ensures stop { IfErr result (λ e. (k : FaultKind) → e ≡ stop.Fault k → check_source (schemas_of known.now) s.now (seen_of sources.old) ≡ Err k) }
{
    let Some(relation) = known.find(&s.table) else {
        return Err(Stop::Fault(FaultKind::NoTable))
    };
    if sources.has(&s.alias) {
        return Err(Stop::Fault(FaultKind::Twice));
    }
    sources.add(alloc, &s.alias, relation.columns)?;
    Ok(relation.number)
}

/// The source of FROM, where there is one.
#[tactic(auto, using(crate::proofs::SourceSteps::from_rules))]
pub(crate) fn bind_from<'a>(
    alloc: Global,
    known: &'a Known,
    from: &Option<Source>,
) -> Result<First<'a>, Stop>
    ensures fine { IfOk result (λ r. check_from (schemas_of known.now) from.now ≡ Ok (seen_of r.sources)) }
    ensures sources { IfOk result (λ r. r.sources ≡ first_sources known.now from.now) }
    ensures number { IfOk result (λ r. r.from ≡ place_from known.now from.now) }
    ensures stop { IfErr result (λ e. (k : FaultKind) → e ≡ stop.Fault k → check_from (schemas_of known.now) from.now ≡ Err k) }
{
    let mut sources = Sources::new(alloc);
    match from {
        Some(s) => {
            let number = add_source(alloc, known, &mut sources, s)?;
            Ok(First {
                from: Some(number),
                sources,
            })
        }
        None => Ok(First {
            from: None,
            sources,
        }),
    }
}

/// The joins behind the first source.
#[tactic(auto, using(crate::proofs::JoinSteps::join_rules))]
pub(crate) fn bind_joins<'a>(
    alloc: Global,
    known: &'a Known,
    first: Sources<'a>,
    joins: &[JoinTo],
) -> Result<Joined<'a>, Stop>
    ensures fine { IfOk result (λ r. check_joins (schemas_of known.now) joins.now (seen_of first.entry) ≡ Ok (seen_of r.sources)) }
    ensures sources { IfOk result (λ r. r.sources ≡ all_sources known.now first.entry joins.now) }
    ensures joins { IfOk result (λ r. r.joins ≡ place_joins known.now first.entry joins.now) }
    ensures stop { IfErr result (λ e. (k : FaultKind) → e ≡ stop.Fault k → check_joins (schemas_of known.now) joins.now (seen_of first.entry) ≡ Err k) }
{
    let mut sources = first;
    let mut bound = Items::new(alloc);
    for join in joins {
        let relation = add_source(alloc, known, &mut sources, &join.source)?;
        let on = bind_truth(alloc, &sources, &join.on)?;
        bound.push(BoundJoin {
            left: join.left,
            relation,
            on,
        })?;
    }
    Ok(Joined {
        sources,
        joins: bound,
    })
}
