//! Which limit is passed at a token.

ghost use Rattle.std.specs.Prelude.{◌≡◌, ◌&&◌, nat_lt};
ghost use Rattle.sparql_query_meaning.specs.Limits.{depth_of, has_long_count};
ghost use Rattle.sparql_faults.specs.Roles.{role_of};
ghost use Rattle.sparql_faults.specs.Passing.{first_of, limit_of};

use crate::role::Role;
use sparql_lexemes::is_long;
use sparql_meaning::{Mark, TokenKind};
use sparql_query_meaning::QueryLimit;

/// How much of each kind there is so far.
#[derive(Clone, Copy, Debug)]
pub(crate) struct Counts {
    pub(crate) patterns: usize,
    pub(crate) variables: usize,
    /// Groups that are open.
    pub(crate) groups: usize,
    /// All groups.
    pub(crate) blocks: usize,
    pub(crate) keys: usize,
}

// Whether a count just passed its limit.
fn passes(most: usize, before: usize, after: usize) -> bool
    ensures { result ≡ (nat_lt most after && nat_lt before after) }
{
    most < after && before < after
}

fn first_of(passed: bool, which: QueryLimit, later: Option<QueryLimit>) -> Option<QueryLimit>
    ensures { result ≡ first_of passed which later }
{
    if passed { Some(which) } else { later }
}

/// The limit that is passed, the first one where several are.
pub(crate) fn limit_of(before: Counts, after: Counts, deep: bool, long: bool) -> Option<QueryLimit>
    ensures { result ≡ limit_of before after deep long }
{
    let limit = first_of(long, QueryLimit::Digits, None);
    let limit = first_of(deep, QueryLimit::Depth, limit);
    let limit = first_of(
        passes(512, before.blocks, after.blocks),
        QueryLimit::Blocks,
        limit,
    );
    let limit = first_of(
        passes(24, before.groups, after.groups),
        QueryLimit::Groups,
        limit,
    );
    let limit = first_of(
        passes(64, before.variables, after.variables),
        QueryLimit::Variables,
        limit,
    );
    let limit = first_of(passes(64, before.keys, after.keys), QueryLimit::Keys, limit);
    first_of(
        passes(48, before.patterns, after.patterns),
        QueryLimit::Patterns,
        limit,
    )
}

/// Whether more than 48 brackets and `!` are open behind a bracket or a `!` of a filter.
pub(crate) fn is_too_deep(role: &Role, kind: &TokenKind) -> bool
    ensures { result ≡ nat_lt 48 (depth_of (role_of role.now) kind.now) }
{
    match (role, kind) {
        (Role::Filter(brackets, waits), TokenKind::Mark(Mark::OpenBracket)) => {
            brackets.is_deeper(false, 47 - *waits as usize)
        }
        (Role::Filter(brackets, _), TokenKind::Mark(Mark::Not)) => brackets.is_deeper(true, 48),
        _ => false,
    }
}

/// Whether a number behind LIMIT or OFFSET has too many digits.
pub(crate) fn has_long_count(role: &Role, kind: &TokenKind) -> bool
    ensures { result ≡ has_long_count (role_of role.now) kind.now }
{
    match (role, kind) {
        (Role::Slice, TokenKind::Integer(text)) => is_long(text.bytes()),
        _ => false,
    }
}
