//! Tokens with their IRIs resolved and their variables numbered.

ghost use Rattle.std.specs.Prelude.{◌≡◌, ◌++◌, IfOk};
ghost use Rattle.rdf_meaning.specs.Terms.{typed};
ghost use Rattle.rdf_meaning.specs.Known.{known_bytes};
ghost use Rattle.sparql_query_meaning.specs.Lexemes.{integer_lexeme, named_lexeme, lexemes, names};
ghost use Rattle.sparql_grammar_meaning.specs.declared.lexeme.Lexeme.TheVariants as shapes;
ghost use Rattle.sparql_lexemes.specs.Lexed.{IsLexeme, IsNamed};

use crate::numbers::number_of;
use crate::prefixes::Prefixes;
use crate::scope::Scope;
use crate::signs::{mark_lexeme, word_lexeme};
use rdf_meaning::{KnownDatatype, Term, TermKind, Text, text_of};
use sparql_grammar_meaning::{Lexeme, Sign};
use sparql_meaning::{LanguageTag, Token, TokenKind};
use sqlite_items::Items;
use std::alloc::{AllocError, Global};

/// The tokens of a query as the grammar sees them, and the names of its variables.
#[derive(Debug, Drop)]
pub struct Lexed {
    pub lexemes: Items<Lexeme>,
    pub names: Items<Text>,
}

fn typed(alloc: Global, text: &Text, datatype: KnownDatatype) -> Result<Term, AllocError>
    ensures { IfOk result (λ t. t ≡ typed text.now (known_bytes datatype)) }
{
    Ok(Term {
        kind: TermKind::Typed,
        text: text.copy(alloc)?,
        aux: Text::known(datatype),
    })
}

// An integer without a sign can be a count.
fn integer_lexeme(alloc: Global, text: &Text) -> Result<Lexeme, AllocError>
    ensures { IfOk result (λ x. x ≡ integer_lexeme text.now) }
{
    let term = typed(alloc, text, KnownDatatype::Integer)?;
    match text.bytes().split_first() {
        None => Ok(Lexeme::Literal(term)),
        Some((first, _)) => {
            if first.is_ascii_digit() {
                Ok(Lexeme::Count(term, number_of(text.bytes())))
            } else {
                Ok(Lexeme::Literal(term))
            }
        }
    }
}

fn joined(alloc: Global, front: &str, back: &str) -> Result<Text, AllocError>
    ensures { IfOk result (λ text. text ≡ front.now ++ back.now) }
{
    let mut text = String::from_str(alloc, front)?;
    text.push_str(back)?;
    text_of(alloc, text.as_str())
}

// A prefixed name of this IRI and this local part.
fn named_lexeme(alloc: Global, base: &str, local: &Text) -> Result<Lexeme, AllocError>
    ensures { IfOk result (λ x. x ≡ named_lexeme base.now local.now) }
{
    let text = joined(alloc, base, local.as_str())?;
    if local.bytes().is_empty() {
        Ok(Lexeme::PrefixName(text))
    } else {
        Ok(Lexeme::Named(text))
    }
}

// The name behind a prefix that isn't declared is refused elsewhere.
fn resolved(
    alloc: Global,
    prefixes: &Prefixes,
    prefix: &Text,
    local: &Text,
) -> Result<Lexeme, AllocError>
    ensures { IfOk result (λ x. IsNamed prefixes.now prefix.now local.now x) }
{
    match prefixes.iri(prefix) {
        Some(base) => named_lexeme(alloc, base.as_str(), local),
        None => named_lexeme(alloc, "", local),
    }
}

// A tag is handed on as it is.
fn copied_tag(alloc: Global, tag: &LanguageTag) -> Result<Lexeme, AllocError>
    ensures { IfOk result (λ x. x ≡ shapes.Tag tag.now) }
{
    match LanguageTag::new(tag.text().copy(alloc)?) {
        Some(copy) => Ok(Lexeme::Tag(copy)),
        None => unreachable!(),
    }
}

fn lexeme(alloc: Global, scope: &Scope, kind: &TokenKind) -> Result<Lexeme, AllocError>
    ensures { IfOk result (IsLexeme scope.now.prefixes scope.now.names kind.now) }
{
    match kind {
        TokenKind::Iri(iri) => Ok(Lexeme::Iri(iri.copy(alloc)?)),
        TokenKind::Named(prefix, local) => resolved(alloc, &scope.prefixes, prefix, local),
        TokenKind::Variable(name) => Ok(Lexeme::Variable(scope.names.number(name))),
        TokenKind::Text(text) => Ok(Lexeme::Text(text.copy(alloc)?)),
        TokenKind::Tag(tag) => copied_tag(alloc, tag),
        TokenKind::Integer(text) => integer_lexeme(alloc, text),
        TokenKind::Decimal(text) => {
            let term = typed(alloc, text, KnownDatatype::Decimal)?;
            Ok(Lexeme::Literal(term))
        }
        TokenKind::LongText(_) | TokenKind::Blank(_) | TokenKind::Double(_) => {
            Ok(Lexeme::Sign(Sign::Other))
        }
        TokenKind::Word(word) => word_lexeme(alloc, *word),
        TokenKind::Mark(mark) => Ok(mark_lexeme(*mark)),
    }
}

/// The tokens as the grammar sees them. A name whose prefix isn't declared, and a variable too many, stand for some IRI and some
/// variable.
#[tactic(auto, using(crate::specs::Lexed::lexed_paths))]
pub fn lexemes(alloc: Global, tokens: &[Token]) -> Result<Lexed, AllocError>
    ensures lexemes { IfOk result (λ r. r.lexemes ≡ lexemes tokens.now) }
    ensures names { IfOk result (λ r. r.names ≡ names tokens.now) }
{
    let mut scope = Scope::new(alloc);
    let mut lexemes = Items::new(alloc);
    let mut rest = tokens;
    'tokens: while let Some((token, after)) = rest.split_first() {
        scope.note(alloc, &token.kind)?;
        let next = lexeme(alloc, &scope, &token.kind)?;
        lexemes.push(next)?;
        scope.pass(alloc, &token.kind)?;
        rest = after;
    }
    let names = scope.names.texts(alloc)?;
    Ok(Lexed { lexemes, names })
}
