//! Expressions.

ghost use Rattle.std.specs.Prelude.{◌≡◌, ◌∷◌, [], map, Ok, Err, IfOk, IfErr, OnOk};
ghost use Rattle.table_meaning.specs.declared.kind.Kind.TheVariants as kind;
ghost use Rattle.sql_rows_meaning.specs.declared.fault.FaultKind.{FaultKind};
ghost use Rattle.sql_rows_meaning.specs.declared.fault.FaultKind.TheVariants.{NoColumn};
ghost use Rattle.sql_rows_meaning.specs.Faults.{found, all_fine};
ghost use Rattle.sql_rows_meaning.specs.Checks as checks;
ghost use Rattle.sql_rows_meaning.specs.Checks.{check, check_truth};
ghost use Rattle.sql_bind_meaning.specs.declared.expression.BoundExpr.TheVariants as v;
ghost use Rattle.sql_rows_meaning.specs.CheckLaws.{branch_kinds};
ghost use Rattle.sql_bind_laws.specs.Places.{places_of, place, place_branch};
ghost use Rattle.sql_bind_names.specs.Newest.{scope_in};
ghost use Rattle.sql_bind_names.specs.declared.stop.Stop.TheVariants as stop;

use crate::kinds::{BranchKind, all_truths, case_kind, compared, one_kind, same_kind};
use rdf_meaning::Text;
use sql_bind_meaning::{BoundBranch, BoundExpr};
use sql_bind_names::{Sources, Stop};
use sql_meaning::{Branch, SqlExpr};
use sql_rows_meaning::FaultKind;
use sqlite_items::{Boxed, Items};
use std::alloc::Global;
use table_meaning::Kind;

/// An expression whose names are places, and its kind.
#[derive(Drop)]
pub struct Typed {
    pub expr: BoundExpr,
    pub kind: Kind,
}

// Expressions, and the kind of each.
#[derive(Drop)]
struct Parts {
    exprs: Items<BoundExpr>,
    kinds: Vec<Kind>,
}

// Branches, and the kinds of each.
#[derive(Drop)]
struct Branches {
    branches: Items<BoundBranch>,
    kinds: Vec<BranchKind>,
}

fn bind_name(sources: &Sources<'_>, alias: &Text, column: &Text) -> Result<Typed, Stop>
    ensures kind { IfOk result (λ r. found NoColumn (scope_in sources.now alias.now column.now) ≡ Ok r.kind) }
    ensures expr { IfOk result (λ r. r.expr ≡ places_of sources.now alias.now column.now) }
    ensures stop { IfErr result (λ s. (k : FaultKind) → s ≡ stop.Fault k → found NoColumn (scope_in sources.now alias.now column.now) ≡ Err k) }
{
    match sources.find(alias, column) {
        Some(place) => Ok(Typed {
            expr: BoundExpr::Cell(place.source, place.column),
            kind: place.kind,
        }),
        None => Err(Stop::Fault(FaultKind::NoColumn)),
    }
}

fn bind_text(alloc: Global, text: &Text) -> Result<Typed, Stop>
    ensures kind { IfOk result (λ r. r.kind ≡ kind.Text) }
    ensures expr { IfOk result (λ r. r.expr ≡ v.Text text.now) }
    ensures stop { IfErr result (λ s. s ≡ stop.NoMemory) }
{
    Ok(Typed {
        expr: BoundExpr::Text(text.copy(alloc)?),
        kind: Kind::Text,
    })
}

fn equal(alloc: Global, left: Typed, right: Typed) -> Result<Typed, Stop>
    ensures kind { IfOk result (λ r. checks.compared (Ok left.kind) (Ok right.kind) ≡ Ok r.kind) }
    ensures expr { IfOk result (λ r. r.expr ≡ v.Equal left.expr right.expr) }
    ensures stop { IfErr result (λ s. (k : FaultKind) → s ≡ stop.Fault k → checks.compared (Ok left.kind) (Ok right.kind) ≡ Err k) }
{
    let kind = compared(left.kind, right.kind)?;
    let left = Boxed::new(alloc, left.expr)?;
    let right = Boxed::new(alloc, right.expr)?;
    Ok(Typed {
        expr: BoundExpr::Equal(left, right),
        kind,
    })
}

fn less(alloc: Global, left: Typed, right: Typed) -> Result<Typed, Stop>
    ensures kind { IfOk result (λ r. checks.compared (Ok left.kind) (Ok right.kind) ≡ Ok r.kind) }
    ensures expr { IfOk result (λ r. r.expr ≡ v.Less left.expr right.expr) }
    ensures stop { IfErr result (λ s. (k : FaultKind) → s ≡ stop.Fault k → checks.compared (Ok left.kind) (Ok right.kind) ≡ Err k) }
{
    let kind = compared(left.kind, right.kind)?;
    let left = Boxed::new(alloc, left.expr)?;
    let right = Boxed::new(alloc, right.expr)?;
    Ok(Typed {
        expr: BoundExpr::Less(left, right),
        kind,
    })
}

fn all(parts: Parts) -> Result<Typed, Stop>
    ensures kind { IfOk result (λ r. checks.all_truths parts.kinds.items ≡ Ok r.kind) }
    ensures expr { IfOk result (λ r. r.expr ≡ v.All parts.exprs) }
    ensures stop { IfErr result (λ s. (k : FaultKind) → s ≡ stop.Fault k → checks.all_truths parts.kinds.items ≡ Err k) }
{
    let kind = all_truths(&parts.kinds)?;
    Ok(Typed {
        expr: BoundExpr::All(parts.exprs),
        kind,
    })
}

fn any(parts: Parts) -> Result<Typed, Stop>
    ensures kind { IfOk result (λ r. checks.all_truths parts.kinds.items ≡ Ok r.kind) }
    ensures expr { IfOk result (λ r. r.expr ≡ v.Any parts.exprs) }
    ensures stop { IfErr result (λ s. (k : FaultKind) → s ≡ stop.Fault k → checks.all_truths parts.kinds.items ≡ Err k) }
{
    let kind = all_truths(&parts.kinds)?;
    Ok(Typed {
        expr: BoundExpr::Any(parts.exprs),
        kind,
    })
}

fn first(parts: Parts) -> Result<Typed, Stop>
    ensures kind { IfOk result (λ r. checks.one_kind parts.kinds.items ≡ Ok r.kind) }
    ensures expr { IfOk result (λ r. r.expr ≡ v.First parts.exprs) }
    ensures stop { IfErr result (λ s. (k : FaultKind) → s ≡ stop.Fault k → checks.one_kind parts.kinds.items ≡ Err k) }
{
    let kind = one_kind(&parts.kinds)?;
    Ok(Typed {
        expr: BoundExpr::First(parts.exprs),
        kind,
    })
}

fn not(alloc: Global, part: Typed) -> Result<Typed, Stop>
    ensures kind { IfOk result (λ r. checks.all_truths (part.kind ∷ []) ≡ Ok r.kind) }
    ensures expr { IfOk result (λ r. r.expr ≡ v.Not part.expr) }
    ensures stop { IfErr result (λ s. (k : FaultKind) → s ≡ stop.Fault k → checks.all_truths (part.kind ∷ []) ≡ Err k) }
{
    let kind = all_truths(&[part.kind])?;
    Ok(Typed {
        expr: BoundExpr::Not(Boxed::new(alloc, part.expr)?),
        kind,
    })
}

fn is_null(alloc: Global, part: Typed) -> Result<Typed, Stop>
    ensures kind { IfOk result (λ r. r.kind ≡ kind.Truth) }
    ensures expr { IfOk result (λ r. r.expr ≡ v.IsNull part.expr) }
    ensures stop { IfErr result (λ s. s ≡ stop.NoMemory) }
{
    Ok(Typed {
        expr: BoundExpr::IsNull(Boxed::new(alloc, part.expr)?),
        kind: Kind::Truth,
    })
}

fn case(alloc: Global, branches: Branches, last: Typed) -> Result<Typed, Stop>
    ensures kind { IfOk result (λ r. checks.case_kind branches.kinds.items last.kind ≡ Ok r.kind) }
    ensures expr { IfOk result (λ r. r.expr ≡ v.Case branches.branches last.expr) }
    ensures stop { IfErr result (λ s. (k : FaultKind) → s ≡ stop.Fault k → checks.case_kind branches.kinds.items last.kind ≡ Err k) }
{
    let kind = case_kind(&branches.kinds, last.kind)?;
    Ok(Typed {
        expr: BoundExpr::Case(branches.branches, Boxed::new(alloc, last.expr)?),
        kind,
    })
}

/// The expression with places for its names, and its kind; or its first fault.
#[cycle(bind)]
#[tactic(auto, using(crate::specs::Levels::leaves, crate::specs::Levels::checking, crate::specs::Levels::placing))]
pub fn bind_expr(alloc: Global, sources: &Sources<'_>, e: &SqlExpr) -> Result<Typed, Stop>
    ensures kind { IfOk result (λ r. check e.now (scope_in sources.now) ≡ Ok r.kind) }
    ensures expr { IfOk result (λ r. r.expr ≡ place e.now (places_of sources.now)) }
    ensures stop { IfErr result (λ s. (k : FaultKind) → s ≡ stop.Fault k → check e.now (scope_in sources.now) ≡ Err k) }
{
    match e {
        SqlExpr::Name(alias, column) => bind_name(sources, alias, column),
        SqlExpr::Int(n) => Ok(Typed {
            expr: BoundExpr::Int(*n),
            kind: Kind::Int,
        }),
        SqlExpr::Text(text) => bind_text(alloc, text),
        SqlExpr::Truth(truth) => Ok(Typed {
            expr: BoundExpr::Truth(*truth),
            kind: Kind::Truth,
        }),
        SqlExpr::Null(kind) => Ok(Typed {
            expr: BoundExpr::Null,
            kind: *kind,
        }),
        SqlExpr::Equal(left, right) => {
            let left = bind_expr(alloc, sources, left.get())?;
            let right = bind_expr(alloc, sources, right.get())?;
            equal(alloc, left, right)
        }
        SqlExpr::Less(left, right) => {
            let left = bind_expr(alloc, sources, left.get())?;
            let right = bind_expr(alloc, sources, right.get())?;
            less(alloc, left, right)
        }
        SqlExpr::All(parts) => all(bind_parts(alloc, sources, parts.as_slice())?),
        SqlExpr::Any(parts) => any(bind_parts(alloc, sources, parts.as_slice())?),
        SqlExpr::Not(part) => not(alloc, bind_expr(alloc, sources, part.get())?),
        SqlExpr::IsNull(part) => is_null(alloc, bind_expr(alloc, sources, part.get())?),
        SqlExpr::Case(branches, last) => {
            let branches = bind_branches(alloc, sources, branches.as_slice())?;
            let last = bind_expr(alloc, sources, last.get())?;
            case(alloc, branches, last)
        }
        SqlExpr::First(parts) => first(bind_parts(alloc, sources, parts.as_slice())?),
    }
}

#[cycle(bind)]
#[tactic(auto, using(crate::proofs::Walked::part_steps))]
fn bind_parts(alloc: Global, sources: &Sources<'_>, parts: &[SqlExpr]) -> Result<Parts, Stop>
    ensures kinds { IfOk result (λ r. all_fine (map (λ e. check e (scope_in sources.now)) parts.now) ≡ Ok r.kinds.items) }
    ensures exprs { IfOk result (λ r. r.exprs ≡ map (λ e. place e (places_of sources.now)) parts.now) }
    ensures stop { IfErr result (λ s. (k : FaultKind) → s ≡ stop.Fault k → all_fine (map (λ e. check e (scope_in sources.now)) parts.now) ≡ Err k) }
{
    let mut exprs = Items::new(alloc);
    let mut kinds = Vec::new(alloc);
    for part in parts {
        let bound = bind_expr(alloc, sources, part)?;
        exprs.push(bound.expr)?;
        kinds.push(bound.kind)?;
    }
    Ok(Parts { exprs, kinds })
}

// A test is walked before its value.
#[cycle(bind)]
#[tactic(auto, using(crate::proofs::Walked::branch_steps, crate::specs::Levels::branching))]
fn bind_branches(
    alloc: Global,
    sources: &Sources<'_>,
    branches: &[Branch],
) -> Result<Branches, Stop>
    ensures kinds { IfOk result (λ r. all_fine (map (λ b. branch_kinds b (scope_in sources.now)) branches.now) ≡ Ok r.kinds.items) }
    ensures branches { IfOk result (λ r. r.branches ≡ map (λ b. place_branch b (places_of sources.now)) branches.now) }
    ensures stop { IfErr result (λ s. (k : FaultKind) → s ≡ stop.Fault k → all_fine (map (λ b. branch_kinds b (scope_in sources.now)) branches.now) ≡ Err k) }
{
    let mut bound = Items::new(alloc);
    let mut kinds = Vec::new(alloc);
    for branch in branches {
        let test = bind_expr(alloc, sources, &branch.test)?;
        let value = bind_expr(alloc, sources, &branch.value)?;
        bound.push(BoundBranch {
            test: test.expr,
            value: value.expr,
        })?;
        kinds.push(BranchKind {
            test: test.kind,
            value: value.kind,
        })?;
    }
    Ok(Branches {
        branches: bound,
        kinds,
    })
}

/// A truth with places for its names; or its first fault.
pub fn bind_truth(alloc: Global, sources: &Sources<'_>, e: &SqlExpr) -> Result<BoundExpr, Stop>
    ensures fine { OnOk result (check_truth e.now (scope_in sources.now) ≡ Ok kind.Truth) }
    ensures expr { IfOk result (λ r. r ≡ place e.now (places_of sources.now)) }
    ensures stop { IfErr result (λ s. (k : FaultKind) → s ≡ stop.Fault k → check_truth e.now (scope_in sources.now) ≡ Err k) }
{
    let bound = bind_expr(alloc, sources, e)?;
    if !same_kind(Kind::Truth, bound.kind) {
        return Err(Stop::Fault(FaultKind::NotTruth));
    }
    Ok(bound.expr)
}
