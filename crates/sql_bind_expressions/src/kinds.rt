//! The kinds that an expression asks of its parts.

ghost use Rattle.std.specs.Prelude.{◌≡◌, Ok};
ghost use Rattle.std.specs.List.{list_all};
ghost use Rattle.table_meaning.specs.declared.kind.Kind.TheVariants as kind;
ghost use Rattle.sql_rows_meaning.specs.Checks as checks;

use sql_rows_meaning::FaultKind;
use std::marker::Model;
use table_meaning::Kind;

/// The kinds of the test and of the value of a branch.
#[derive(Debug, Drop)]
pub struct BranchKind {
    pub test: Kind,
    pub value: Kind,
}

impl Model for BranchKind {
    ghost use Rattle.sql_rows_meaning.specs.Checks.{BranchKinds};

    ghost Value = { BranchKinds };

    ghost view = { λ b. record { test = b.test; value = b.value } };
}

/// Whether two kinds are the same.
pub fn same_kind(a: Kind, b: Kind) -> bool
    ensures { result ≡ checks.same_kind a b }
{
    matches!(
        (a, b),
        (Kind::Int, Kind::Int) | (Kind::Text, Kind::Text) | (Kind::Truth, Kind::Truth)
    )
}

// Whether all are of this kind.
fn all_are(kind: Kind, kinds: &[Kind]) -> bool
    ensures { result ≡ list_all (checks.same_kind kind) kinds.now }
{
    kinds.iter().all(|other| same_kind(kind, *other))
}

// Whether all tests are truths.
fn tests_are_truths(kinds: &[BranchKind]) -> bool
    ensures { result ≡ list_all (λ (b : checks.BranchKinds). checks.same_kind kind.Truth b.test) kinds.now }
{
    kinds
        .iter()
        .all(|branch| same_kind(Kind::Truth, branch.test))
}

// Whether all values are of this kind.
fn values_are(kind: Kind, kinds: &[BranchKind]) -> bool
    ensures { result ≡ list_all (λ (b : checks.BranchKinds). checks.same_kind kind b.value) kinds.now }
{
    kinds.iter().all(|branch| same_kind(kind, branch.value))
}

/// Truth, where all are truths.
pub fn all_truths(kinds: &[Kind]) -> Result<Kind, FaultKind>
    ensures { result ≡ checks.all_truths kinds.now }
{
    if all_are(Kind::Truth, kinds) {
        Ok(Kind::Truth)
    } else {
        Err(FaultKind::NotTruth)
    }
}

/// The one kind that all are of.
pub fn one_kind(kinds: &[Kind]) -> Result<Kind, FaultKind>
    ensures { result ≡ checks.one_kind kinds.now }
{
    match kinds {
        [] => Err(FaultKind::KindClash),
        [first, others @ ..] => {
            if all_are(*first, others) {
                Ok(*first)
            } else {
                Err(FaultKind::KindClash)
            }
        }
    }
}

/// Truth, where both are of one kind.
pub fn compared(left: Kind, right: Kind) -> Result<Kind, FaultKind>
    ensures { result ≡ checks.compared (Ok left) (Ok right) }
{
    if same_kind(left, right) {
        Ok(Kind::Truth)
    } else {
        Err(FaultKind::KindClash)
    }
}

/// The kind of a CASE: its tests are truths, and its values are of one kind with the last one.
#[tactic(auto, using(crate::proofs::CaseKinds::case_paths))]
pub fn case_kind(kinds: &[BranchKind], last: Kind) -> Result<Kind, FaultKind>
    ensures { result ≡ checks.case_kind kinds.now last }
{
    if !tests_are_truths(kinds) {
        return Err(FaultKind::NotTruth);
    }
    if values_are(last, kinds) {
        Ok(last)
    } else {
        Err(FaultKind::KindClash)
    }
}
