//! Where the next token stands.

ghost use Rattle.std.specs.Prelude.{◌≡◌, IfOk};
ghost use Rattle.std.specs.Option.{option_copied};
ghost use Rattle.sparql_query_meaning.specs.Limits.{goes_on, is_text, done, behind_part, behind_text, takes_brackets, behind_bracket, in_filter, between, in_end, role_behind, behind_brace};
ghost use Rattle.sparql_faults.specs.Roles.{place_of, role_of, IsBetween, role_at};

use crate::brackets::Brackets;
use crate::role::{Place, Role};
use sparql_meaning::{Mark, TokenKind, Word};
use std::alloc::{AllocError, Global};

// Whether a tag or `^^` is next.
fn goes_on(ahead: Option<&TokenKind>) -> bool
    ensures { result ≡ goes_on (option_copied ahead.entry) }
{
    match ahead {
        Some(TokenKind::Tag(_)) => true,
        Some(TokenKind::Mark(Mark::TwoCarets)) => true,
        _ => false,
    }
}

fn is_text(kind: &TokenKind) -> bool
    ensures { result ≡ is_text kind.now }
{
    matches!(kind, TokenKind::Text(_))
}

// Behind a part of a triple.
fn done(place: Place) -> Role
    ensures { role_of result ≡ done (place_of place) }
{
    match place {
        Place::Subject => Role::Next(Place::Predicate),
        Place::Predicate => Role::Next(Place::Object),
        Place::Object => Role::BehindObject,
    }
}

// Behind a token that begins a part of a triple.
fn behind_part(place: Place, kind: &TokenKind, ahead: Option<&TokenKind>) -> Role
    ensures { role_of result ≡ behind_part (place_of place) kind.now (option_copied ahead.entry) }
{
    if is_text(kind) && goes_on(ahead) {
        Role::TextOf(place)
    } else {
        done(place)
    }
}

fn behind_text(place: Place, kind: &TokenKind) -> Role
    ensures { role_of result ≡ behind_text (place_of place) kind.now }
{
    match kind {
        TokenKind::Tag(_) => done(place),
        _ => Role::TypeOf(place),
    }
}

// Whether the next bracket belongs to this token.
fn takes_brackets(kind: &TokenKind) -> bool
    ensures { result ≡ takes_brackets kind.now }
{
    matches!(
        kind,
        TokenKind::Word(
            Word::Str
                | Word::Lang
                | Word::Datatype
                | Word::Bound
                | Word::SameTerm
                | Word::IsIri
                | Word::IsBlank
                | Word::IsLiteral
        )
    )
}

// A filter ends with its last bracket.
#[tactic(auto, using(crate::proofs::DepthLaws::bracket_paths))]
fn behind_bracket(brackets: Brackets) -> Role
    ensures { role_of result ≡ behind_bracket brackets }
{
    let mut brackets = brackets;
    brackets.close();
    if brackets.is_empty() {
        Role::Next(Place::Subject)
    } else {
        Role::Filter(brackets, false)
    }
}

fn in_filter(brackets: Brackets, waits: bool, kind: &TokenKind) -> Result<Role, AllocError>
    ensures { IfOk result (λ r. role_of r ≡ in_filter brackets waits kind.now) }
{
    let mut brackets = brackets;
    match kind {
        TokenKind::Mark(Mark::OpenBracket) => {
            brackets.open(waits)?;
            Ok(Role::Filter(brackets, false))
        }
        TokenKind::Mark(Mark::CloseBracket) => Ok(behind_bracket(brackets)),
        TokenKind::Mark(Mark::Not) => Ok(Role::Filter(brackets, true)),
        _ => Ok(Role::Filter(brackets, waits && takes_brackets(kind))),
    }
}

// What may stand between triples and their parts.
#[tactic(auto, using(crate::specs::Roles::found_paths))]
fn between(alloc: Global, kind: &TokenKind) -> Option<Role>
    ensures { IsBetween kind.now result }
{
    match kind {
        TokenKind::Mark(Mark::Dot) => Some(Role::Next(Place::Subject)),
        TokenKind::Mark(Mark::Semicolon) => Some(Role::Next(Place::Predicate)),
        TokenKind::Mark(Mark::Comma) => Some(Role::Next(Place::Object)),
        TokenKind::Word(Word::Optional) => Some(Role::Next(Place::Subject)),
        TokenKind::Word(Word::Union) => Some(Role::Next(Place::Subject)),
        TokenKind::Word(Word::Filter) => Some(Role::Filter(Brackets::new(alloc), false)),
        _ => None,
    }
}

// Behind the group of the query.
fn in_end(kind: &TokenKind, before: Role) -> Role
    ensures { role_of result ≡ in_end kind.now (role_of before) }
{
    match kind {
        TokenKind::Word(Word::Order) => Role::Order,
        TokenKind::Word(Word::Limit) => Role::Slice,
        TokenKind::Word(Word::Offset) => Role::Slice,
        _ => before,
    }
}

// Behind a token that is no brace.
#[tactic(auto, using(crate::specs::Roles::between_paths))]
fn role_behind(
    alloc: Global,
    before: Role,
    kind: &TokenKind,
    ahead: Option<&TokenKind>,
) -> Result<Role, AllocError>
    ensures { IfOk result (λ r. role_of r ≡ role_behind (role_of before) kind.now (option_copied ahead.entry)) }
{
    match before {
        Role::Head => Ok(Role::Head),
        Role::Next(place) => match between(alloc, kind) {
            Some(role) => Ok(role),
            None => Ok(behind_part(place, kind, ahead)),
        },
        Role::TextOf(place) => Ok(behind_text(place, kind)),
        Role::TypeOf(place) => Ok(done(place)),
        Role::BehindObject => match between(alloc, kind) {
            Some(role) => Ok(role),
            None => Ok(Role::BehindObject),
        },
        Role::Filter(brackets, waits) => in_filter(brackets, waits, kind),
        Role::End => Ok(in_end(kind, Role::End)),
        Role::Order => Ok(in_end(kind, Role::Order)),
        Role::Slice => Ok(in_end(kind, Role::Slice)),
    }
}

// Behind the last brace the group of the query ends.
fn behind_brace(groups: usize) -> Role
    ensures { role_of result ≡ behind_brace groups }
{
    match groups {
        0 => Role::End,
        _ => Role::Next(Place::Subject),
    }
}

/// Behind a token, where so many groups are open before it; the next token is known.
pub(crate) fn role_after(
    alloc: Global,
    before: Role,
    groups: usize,
    kind: &TokenKind,
    ahead: Option<&TokenKind>,
) -> Result<Role, AllocError>
    ensures { IfOk result (λ r. role_of r ≡ role_at (role_of before) groups kind.now (option_copied ahead.entry)) }
{
    match kind {
        TokenKind::Mark(Mark::OpenBrace) => Ok(Role::Next(Place::Subject)),
        TokenKind::Mark(Mark::CloseBrace) => Ok(behind_brace(groups.saturating_sub(1))),
        _ => role_behind(alloc, before, kind, ahead),
    }
}
