//! IRIs, literals, and the three places of a triple.

ghost use Rattle.std.specs.Prelude.{IfOk, IfErr, ◌≡◌, ◌∷◌, ◌<◌, length};
ghost use Rattle.rdf_meaning.specs.Terms.{iri, tagged, typed};
ghost use Rattle.query_meaning.specs.declared.pattern.Slot.TheVariants as slot;
ghost use Rattle.sparql_grammar_meaning.specs.Grammar.{Iri_, Literal_, Term_, Verb_, an_iri, a_literal, a_slot, plain, rdf_type};
ghost use Rattle.sparql_grammar_meaning.specs.declared.lexeme.Lexeme.TheVariants as lexeme;
ghost use Rattle.sparql_cursor.specs.Outcomes.{Gets, Stops};

use query_meaning::Slot;
use rdf_meaning::{KnownDatatype, Term, TermKind, Text, text_of};
use sparql_cursor::{Refusal, after_sign, after_variable, iri_ahead, next};
use sparql_grammar_meaning::{Lexeme, Sign};
use sparql_meaning::LanguageTag;
use std::alloc::{AllocError, Global};

/// Reads an IRI, written out or by a prefix.
#[tactic(auto, using(crate::specs::TermSteps::iri_paths))]
pub fn read_iri(alloc: Global, tokens: &[Lexeme]) -> Result<(Text, &[Lexeme]), Refusal>
    ensures reads { IfOk result (λ r. Gets Iri_ tokens.now (an_iri r.0) r.1.now) }
    ensures shorter { IfOk result (λ r. length r.1.now < length tokens.now) }
    ensures refuses { IfErr result (λ e. Stops Iri_ tokens.now e) }
{
    match next(tokens) {
        Some((Lexeme::Iri(iri), rest)) => Ok((iri.copy(alloc)?, rest)),
        Some((Lexeme::Named(iri), rest)) => Ok((iri.copy(alloc)?, rest)),
        Some((Lexeme::PrefixName(iri), rest)) => Ok((iri.copy(alloc)?, rest)),
        _ => Err(Refusal::Syntax { left: tokens.len() }),
    }
}

fn iri_term(alloc: Global, text: Text) -> Result<Term, AllocError>
    ensures { IfOk result (λ t. t ≡ iri text) }
{
    Ok(Term {
        kind: TermKind::Iri,
        text,
        aux: text_of(alloc, "")?,
    })
}

// A literal without a tag and a datatype.
fn plain_literal(alloc: Global, text: &Text) -> Result<Term, AllocError>
    ensures { IfOk result (λ t. t ≡ plain text.now) }
{
    Ok(Term {
        kind: TermKind::Typed,
        text: text.copy(alloc)?,
        aux: Text::known(KnownDatatype::String),
    })
}

fn typed_literal(alloc: Global, text: &Text, datatype: Text) -> Result<Term, AllocError>
    ensures { IfOk result (λ t. t ≡ typed text.now datatype) }
{
    Ok(Term {
        kind: TermKind::Typed,
        text: text.copy(alloc)?,
        aux: datatype,
    })
}

fn tagged_literal(alloc: Global, text: &Text, tag: &LanguageTag) -> Result<Term, AllocError>
    ensures { IfOk result (λ t. t ≡ tagged text.now tag.now) }
{
    Ok(Term {
        kind: TermKind::Tagged,
        text: text.copy(alloc)?,
        aux: tag.text().copy(alloc)?,
    })
}

// A literal, of which the text stands in front of these tokens.
#[tactic(auto, using(crate::specs::TermSteps::text_paths))]
fn read_text<'a>(
    alloc: Global,
    text: &Text,
    tokens: &'a [Lexeme],
) -> Result<(Term, &'a [Lexeme]), Refusal>
    ensures reads { IfOk result (λ r. Gets Literal_ (lexeme.Text text.now ∷ tokens.now) (a_literal r.0) r.1.now) }
    ensures shorter { IfOk result (λ r. length r.1.now < length (lexeme.Text text.now ∷ tokens.now)) }
    ensures refuses { IfErr result (λ e. Stops Literal_ (lexeme.Text text.now ∷ tokens.now) e) }
{
    match next(tokens) {
        Some((Lexeme::Tag(tag), rest)) => Ok((tagged_literal(alloc, text, tag)?, rest)),
        Some((Lexeme::Sign(Sign::TwoCarets), rest)) => {
            let (datatype, rest) = read_iri(alloc, rest)?;
            Ok((typed_literal(alloc, text, datatype)?, rest))
        }
        _ => Ok((plain_literal(alloc, text)?, tokens)),
    }
}

/// Reads a literal.
#[tactic(auto, using(crate::specs::TermSteps::literal_paths))]
pub fn read_literal(alloc: Global, tokens: &[Lexeme]) -> Result<(Term, &[Lexeme]), Refusal>
    ensures reads { IfOk result (λ r. Gets Literal_ tokens.now (a_literal r.0) r.1.now) }
    ensures shorter { IfOk result (λ r. length r.1.now < length tokens.now) }
    ensures refuses { IfErr result (λ e. Stops Literal_ tokens.now e) }
{
    match next(tokens) {
        Some((Lexeme::Text(text), rest)) => read_text(alloc, text, rest),
        Some((Lexeme::Count(term, _), rest)) => Ok((term.copy(alloc)?, rest)),
        Some((Lexeme::Literal(term), rest)) => Ok((term.copy(alloc)?, rest)),
        _ => Err(Refusal::Syntax { left: tokens.len() }),
    }
}

/// Reads a variable, an IRI or a literal.
#[tactic(auto, using(crate::specs::TermSteps::term_paths))]
pub(crate) fn read_term(alloc: Global, tokens: &[Lexeme]) -> Result<(Slot, &[Lexeme]), Refusal>
    ensures reads { IfOk result (λ r. Gets Term_ tokens.now (a_slot r.0) r.1.now) }
    ensures shorter { IfOk result (λ r. length r.1.now < length tokens.now) }
    ensures refuses { IfErr result (λ e. Stops Term_ tokens.now e) }
{
    if let Some((v, rest)) = after_variable(tokens) {
        return Ok((Slot::Var(v), rest));
    }
    if iri_ahead(tokens) {
        let (iri, rest) = read_iri(alloc, tokens)?;
        return Ok((Slot::Const(iri_term(alloc, iri)?), rest));
    }
    let (literal, rest) = read_literal(alloc, tokens)?;
    Ok((Slot::Const(literal), rest))
}

fn type_term(alloc: Global) -> Result<Term, AllocError>
    ensures { IfOk result (λ t. t ≡ iri rdf_type) }
{
    let text = text_of(alloc, "http://www.w3.org/1999/02/22-rdf-syntax-ns#type")?;
    iri_term(alloc, text)
}

/// Reads a predicate: a variable, an IRI or `a`.
#[tactic(auto, using(crate::specs::TermSteps::verb_paths))]
pub(crate) fn read_verb(alloc: Global, tokens: &[Lexeme]) -> Result<(Slot, &[Lexeme]), Refusal>
    ensures reads { IfOk result (λ r. Gets Verb_ tokens.now (a_slot r.0) r.1.now) }
    ensures shorter { IfOk result (λ r. length r.1.now < length tokens.now) }
    ensures refuses { IfErr result (λ e. Stops Verb_ tokens.now e) }
{
    if let Some((v, rest)) = after_variable(tokens) {
        return Ok((Slot::Var(v), rest));
    }
    if iri_ahead(tokens) {
        let (iri, rest) = read_iri(alloc, tokens)?;
        return Ok((Slot::Const(iri_term(alloc, iri)?), rest));
    }
    match after_sign(tokens, Sign::A) {
        Some(rest) => Ok((Slot::Const(type_term(alloc)?), rest)),
        None => Err(Refusal::Syntax { left: tokens.len() }),
    }
}
