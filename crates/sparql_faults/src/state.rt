//! What was counted before a token.

ghost use Rattle.std.specs.Prelude.{◌≡◌, ◌+◌, ◌<◌, ◌^◌, ◌&&◌, IfOk};
ghost use Rattle.std.specs.Option.{option_copied};
ghost use Rattle.sparql_query_meaning.specs.Limits.{groups_after, blocks_after, keys_after, is_object, is_behind_object, is_unknown, one_if};
ghost use Rattle.sparql_faults.specs.Roles.{role_of};
ghost use Rattle.sparql_faults.specs.States.{HasRoom, IsFirst, IsNext, IsUnknown, counts_of};

use crate::limits::Counts;
use crate::role::{Place, Role};
use crate::turning::role_after;
use sparql_lexemes::{Declaring, Scope};
use sparql_meaning::{Mark, TokenKind};
use std::alloc::{AllocError, Global};

/// Where the next token stands, and what was counted before it.
#[derive(Drop)]
pub(crate) struct State {
    pub(crate) role: Role,
    pub(crate) scope: Scope,
    pub(crate) patterns: usize,
    /// Groups that are open.
    pub(crate) groups: usize,
    /// All groups.
    pub(crate) blocks: usize,
    pub(crate) keys: usize,
}

fn groups_after(groups: usize, kind: &TokenKind) -> usize
    requires { groups + 1 < 2 ^ 64 }
    ensures { result ≡ groups_after groups kind.now }
{
    match kind {
        TokenKind::Mark(Mark::OpenBrace) => groups + 1,
        TokenKind::Mark(Mark::CloseBrace) => groups.saturating_sub(1),
        _ => groups,
    }
}

fn blocks_after(blocks: usize, kind: &TokenKind) -> usize
    requires { blocks + 1 < 2 ^ 64 }
    ensures { result ≡ blocks_after blocks kind.now }
{
    match kind {
        TokenKind::Mark(Mark::OpenBrace) => blocks + 1,
        _ => blocks,
    }
}

fn keys_after(role: &Role, keys: usize, kind: &TokenKind) -> usize
    requires { keys + 1 < 2 ^ 64 }
    ensures { result ≡ keys_after (role_of role.now) keys kind.now }
{
    match (role, kind) {
        (Role::Order, TokenKind::Variable(_)) => keys + 1,
        _ => keys,
    }
}

fn is_object(role: &Role) -> bool
    ensures { result ≡ is_object (role_of role.now) }
{
    matches!(
        role,
        Role::Next(Place::Object) | Role::TextOf(Place::Object) | Role::TypeOf(Place::Object)
    )
}

fn is_behind_object(role: &Role) -> bool
    ensures { result ≡ is_behind_object (role_of role.now) }
{
    matches!(role, Role::BehindObject)
}

// One more where the object of a pattern ends.
fn patterns_after(patterns: usize, object: bool, after: &Role) -> usize
    requires { patterns + 1 < 2 ^ 64 }
    ensures { result ≡ patterns + one_if (object && is_behind_object (role_of after.now)) }
{
    if object && is_behind_object(after) {
        patterns + 1
    } else {
        patterns
    }
}

/// Whether the token is a name whose prefix isn't declared before it.
pub(crate) fn is_unknown(scope: &Scope, kind: &TokenKind) -> bool
    ensures { IsUnknown scope.now kind.now result }
{
    match (&scope.declaring, kind) {
        (Declaring::Begun, _) => false,
        (_, TokenKind::Named(prefix, _)) => scope.prefixes.iri(prefix).is_none(),
        _ => false,
    }
}

impl State {
    pub(crate) fn new(alloc: Global) -> State
        ensures { IsFirst result }
    {
        State {
            role: Role::Head,
            scope: Scope::new(alloc),
            patterns: 0,
            groups: 0,
            blocks: 0,
            keys: 0,
        }
    }

    pub(crate) fn counts(&self) -> Counts
        ensures { result ≡ counts_of self.now }
    {
        Counts {
            patterns: self.patterns,
            variables: self.scope.names.count(),
            groups: self.groups,
            blocks: self.blocks,
            keys: self.keys,
        }
    }
}

/// Goes behind a token; the next one is known.
pub(crate) fn state_after(
    alloc: Global,
    state: State,
    kind: &TokenKind,
    ahead: Option<&TokenKind>,
) -> Result<State, AllocError>
    requires { HasRoom state }
    ensures { IfOk result (IsNext state kind.now (option_copied ahead.entry)) }
{
    let State {
        role,
        mut scope,
        patterns,
        groups,
        blocks,
        keys,
    } = state;
    let object = is_object(&role);
    let keys = keys_after(&role, keys, kind);
    let role = role_after(alloc, role, groups, kind, ahead)?;
    let patterns = patterns_after(patterns, object, &role);
    scope.note(alloc, kind)?;
    scope.pass(alloc, kind)?;
    Ok(State {
        role,
        scope,
        patterns,
        groups: groups_after(groups, kind),
        blocks: blocks_after(blocks, kind),
        keys,
    })
}
