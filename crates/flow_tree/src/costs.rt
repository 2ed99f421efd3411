//! What it costs to look a pattern up, and whether it may be.

ghost use Rattle.std.specs.Prelude.{◌≡◌, ◌<◌};
ghost use Rattle.layout_meaning.specs.Facts.{CountOf};
ghost use Rattle.query_flow_meaning.specs.Flow.{counted, shared_out, end_cost, cost_by, is_known, allowed_by};
ghost use Rattle.sparql_variables.specs.Bits.{members};

use pred_columns::{ConstCount, Counts};
use query_flow_meaning::Method;
use query_meaning::{Pattern, Slot};
use rdf_meaning::Term;
use sparql_variables::VarSet;

// The count as subject of the first entry that names the term, or 0.
fn as_subject(entries: &[ConstCount], term: &Term) -> u64
    ensures { result ≡ counted (λ (c : CountOf). c.as_subject) entries.now term.now }
{
    match entries {
        [] => 0,
        [entry, rest @ ..] => {
            if entry.term == *term {
                entry.as_subject
            } else {
                as_subject(rest, term)
            }
        }
    }
}

// The count as object of the first entry that names the term, or 0.
fn as_object(entries: &[ConstCount], term: &Term) -> u64
    ensures { result ≡ counted (λ (c : CountOf). c.as_object) entries.now term.now }
{
    match entries {
        [] => 0,
        [entry, rest @ ..] => {
            if entry.term == *term {
                entry.as_object
            } else {
                as_object(rest, term)
            }
        }
    }
}

// An equal share, rounded up, or 0 where there is nothing to share among.
#[tactic(auto, using(crate::proofs::Shares::share_laws))]
fn share(count: u64, ends: u64) -> u64
    ensures { result ≡ shared_out count ends }
{
    if ends == 0 { 0 } else { count.div_ceil(ends) }
}

fn subject_cost(counts: &Counts, slot: &Slot) -> u64
    ensures { result ≡ end_cost counts.now (λ (c : CountOf). c.as_subject) counts.now.subjects slot.now }
{
    match slot {
        Slot::Const(term) => as_subject(counts.constants.as_slice(), term),
        Slot::Var(_) => share(counts.triples, counts.subjects),
    }
}

fn object_cost(counts: &Counts, slot: &Slot) -> u64
    ensures { result ≡ end_cost counts.now (λ (c : CountOf). c.as_object) counts.now.objects slot.now }
{
    match slot {
        Slot::Const(term) => as_object(counts.constants.as_slice(), term),
        Slot::Var(_) => share(counts.triples, counts.objects),
    }
}

/// What it costs to look the pattern up by a method.
pub(crate) fn cost(counts: &Counts, pattern: &Pattern, method: Method) -> u64
    requires { counts.now.triples < 0xffffffffffffffff }
    ensures { result ≡ cost_by counts.now pattern.now method }
{
    match method {
        Method::Direct => subject_cost(counts, &pattern.s),
        Method::Reverse => object_cost(counts, &pattern.o),
        Method::Scan => counts.triples + 1,
    }
}

fn knows(bound: &VarSet, slot: &Slot) -> bool
    ensures { result ≡ is_known (members bound.now) slot.now }
{
    match slot {
        Slot::Const(_) => true,
        Slot::Var(v) => bound.has(*v),
    }
}

/// Whether the pattern may be looked up by a method, where these variables are bound.
pub(crate) fn allows(bound: &VarSet, pattern: &Pattern, method: Method) -> bool
    ensures { result ≡ allowed_by (members bound.now) pattern.now method }
{
    match method {
        Method::Direct => knows(bound, &pattern.s),
        Method::Reverse => knows(bound, &pattern.o),
        Method::Scan => true,
    }
}
