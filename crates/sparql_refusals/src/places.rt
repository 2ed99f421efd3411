//! Where a query is refused.

ghost use Rattle.std.specs.Prelude.{◌≡◌, ◌≤◌, length};
ghost use Rattle.std.specs.Option.{option_copied, option_map};
ghost use Rattle.sparql_query_meaning.specs.Queries.{place_behind, kind_behind, kind_before, feature_behind, broken_at, faulty_at};
ghost use Rattle.sparql_query_meaning.specs.Limits.{first_fault};
ghost use Rattle.sparql_faults.specs.Faults.{fault_of, fault_at_of};
ghost use Rattle.sparql_refusals.specs.Outcomes.{read_front, refusal_by};

use crate::features::feature;
use sparql_faults::{Fault, FaultAt};
use sparql_meaning::{Feature, Token, TokenKind};
use sparql_query_meaning::QueryRefusal;
use sqlite_items::at;

// Where the token stands behind so many others, or the end of the text.
fn place_behind(bytes: &[u8], tokens: &[Token], n: usize) -> usize
    ensures { result ≡ place_behind bytes.now tokens.now n }
{
    match at(tokens, n) {
        Some(token) => token.from,
        None => bytes.len(),
    }
}

fn kind_behind(tokens: &[Token], n: usize) -> Option<&TokenKind>
    ensures { option_copied result ≡ kind_behind tokens.now n }
{
    match at(tokens, n) {
        Some(token) => Some(&token.kind),
        None => None,
    }
}

#[tactic(auto, using(crate::proofs::TokenPlaces::before_paths))]
fn kind_before(tokens: &[Token], n: usize) -> Option<&TokenKind>
    ensures { option_copied result ≡ kind_before tokens.now n }
{
    if n == 0 {
        None
    } else {
        kind_behind(tokens, n - 1)
    }
}

// The end of the text has no feature.
fn feature_behind(tokens: &[Token], n: usize) -> Option<Feature>
    ensures { result ≡ feature_behind tokens.now n (kind_behind tokens.now n) }
{
    match kind_behind(tokens, n) {
        Some(kind) => feature(kind_before(tokens, n), kind),
        None => None,
    }
}

// The refusal of the first token with which the tokens begin no query.
fn broken_at(bytes: &[u8], tokens: &[Token], n: usize) -> QueryRefusal
    ensures { result ≡ broken_at bytes.now tokens.now n }
{
    let at = place_behind(bytes, tokens, n);
    match feature_behind(tokens, n) {
        Some(feature) => QueryRefusal::NotInFragment { feature, at },
        None => QueryRefusal::Syntax { at },
    }
}

/// The refusal of a token at which a prefix isn't declared or a limit is passed.
pub fn faulty_at(bytes: &[u8], tokens: &[Token], fault: FaultAt) -> QueryRefusal
    ensures { result ≡ faulty_at bytes.now tokens.now (fault_at_of fault) (fault_of fault.fault) }
{
    match fault.fault {
        Fault::UnknownPrefix => QueryRefusal::UnknownPrefix {
            at: place_behind(bytes, tokens, fault.before),
        },
        Fault::Limit(which) => QueryRefusal::Limit { which },
    }
}

/// How many tokens have to be read: all, or those up to the first fault and with it.
#[tactic(auto, using(crate::specs::Outcomes::front_within))]
pub fn read_front(tokens: &[Token], fault: Option<FaultAt>) -> usize
    requires { option_map fault_at_of fault ≡ first_fault tokens.now }
    ensures value { result ≡ read_front tokens.now }
    ensures within { result ≤ length tokens.now }
{
    match fault {
        Some(fault) => fault.before + 1,
        None => tokens.len(),
    }
}

/// The refusal of tokens of which so many were left when the grammar broke, where so many were read. Where none of those up to a
/// fault is left, the fault is what is wrong.
pub fn refused(
    bytes: &[u8],
    tokens: &[Token],
    fault: Option<FaultAt>,
    read: usize,
    left: usize,
) -> QueryRefusal
    requires { left ≤ read }
    ensures { result ≡ refusal_by bytes.now tokens.now read left (option_map fault_at_of fault) }
{
    match fault {
        None => broken_at(bytes, tokens, read - left),
        Some(fault) => {
            if left == 0 {
                faulty_at(bytes, tokens, fault)
            } else {
                broken_at(bytes, tokens, read - left)
            }
        }
    }
}
