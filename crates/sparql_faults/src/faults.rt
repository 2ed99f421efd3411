//! The first fault of a query's tokens.

ghost use Rattle.std.specs.Prelude.{◌≡◌, IfOk};
ghost use Rattle.std.specs.Option.{option_copied, option_map};
ghost use Rattle.sparql_query_meaning.specs.Limits.{next_kind, first_fault};
ghost use Rattle.sparql_faults.specs.States.{HasRoom};
ghost use Rattle.sparql_faults.specs.Faults.{IsStep, fault_at_of};

use crate::limits::{has_long_count, is_too_deep, limit_of};
use crate::state::{State, is_unknown, state_after};
use sparql_meaning::{Token, TokenKind};
use sparql_query_meaning::QueryLimit;
use std::alloc::{AllocError, Global};

/// What is wrong with a token.
#[derive(Clone, Copy, Debug, PartialEq, Eq)]
pub enum Fault {
    UnknownPrefix,
    Limit(QueryLimit),
}

/// A fault, and how many tokens stand before it.
#[derive(Clone, Copy, Debug, PartialEq, Eq)]
pub struct FaultAt {
    pub before: usize,
    pub fault: Fault,
}

// What a token comes to.
#[derive(Drop)]
enum Step {
    Broke(Fault),
    On(State),
}

fn next_kind(tokens: &[Token]) -> Option<&TokenKind>
    ensures { option_copied result ≡ next_kind tokens.now }
{
    match tokens {
        [] => None,
        [first, ..] => Some(&first.kind),
    }
}

// A prefix goes before a limit.
#[tactic(auto, using(crate::specs::Faults::step_paths))]
fn take(
    alloc: Global,
    state: State,
    kind: &TokenKind,
    ahead: Option<&TokenKind>,
) -> Result<Step, AllocError>
    requires { HasRoom state }
    ensures { IfOk result (IsStep state kind.now (option_copied ahead.entry)) }
{
    if is_unknown(&state.scope, kind) {
        return Ok(Step::Broke(Fault::UnknownPrefix));
    }
    let deep = is_too_deep(&state.role, kind);
    let long = has_long_count(&state.role, kind);
    let before = state.counts();
    let next = state_after(alloc, state, kind, ahead)?;
    match limit_of(before, next.counts(), deep, long) {
        Some(which) => Ok(Step::Broke(Fault::Limit(which))),
        None => Ok(Step::On(next)),
    }
}

/// The first token that is a name whose prefix isn't declared, or at which a limit is passed, as the tokens stand in a query.
#[tactic(auto, using(crate::specs::Faults::fault_paths))]
pub fn first_fault(alloc: Global, tokens: &[Token]) -> Result<Option<FaultAt>, AllocError>
    ensures { IfOk result (λ r. option_map fault_at_of r ≡ first_fault tokens.now) }
{
    let mut state = State::new(alloc);
    let mut before = 0;
    let mut rest = tokens;
    'tokens: while let Some((token, after)) = rest.split_first() {
        match take(alloc, state, &token.kind, next_kind(after))? {
            Step::Broke(fault) => return Ok(Some(FaultAt { before, fault })),
            Step::On(next) => state = next,
        }
        before += 1;
        rest = after;
    }
    Ok(None)
}
