//! Triples.

ghost use Rattle.std.specs.Prelude.{IfOk, IfErr, ◌<◌, ◌≤◌, length};
ghost use Rattle.sparql_grammar_meaning.specs.Grammar.{Same_, Triples_, patterns};
ghost use Rattle.sparql_cursor.specs.Outcomes.{Gets, Stops};
ghost use Rattle.sparql_terms.specs.TripleSteps.{PairGot, PairStops, MoreGot, MoreStops};

use crate::objects::{patterns_of, read_objects};
use crate::terms::{read_term, read_verb};
use query_meaning::{Pattern, Slot};
use sparql_cursor::{Refusal, after_sign, term_ahead, verb_ahead};
use sparql_grammar_meaning::{Lexeme, Sign};
use sqlite_items::Items;
use std::alloc::Global;

// A predicate and its objects.
#[tactic(auto, using(crate::specs::TripleSteps::pair_paths))]
fn read_pair<'a>(
    alloc: Global,
    subject: &Slot,
    tokens: &'a [Lexeme],
) -> Result<(Items<Pattern>, &'a [Lexeme]), Refusal>
    ensures reads { IfOk result (λ r. PairGot subject.now tokens.now r.0 r.1.now) }
    ensures shorter { IfOk result (λ r. length r.1.now < length tokens.now) }
    ensures refuses { IfErr result (λ e. PairStops tokens.now e) }
{
    let (verb, rest) = read_verb(alloc, tokens)?;
    let (objects, rest) = read_objects(alloc, rest)?;
    let patterns = patterns_of(alloc, subject, &verb, objects.as_slice())?;
    Ok((patterns, rest))
}

// What stands behind a semicolon: maybe a predicate and its objects.
#[tactic(auto, using(crate::specs::TripleSteps::more_paths))]
fn read_more<'a>(
    alloc: Global,
    subject: &Slot,
    tokens: &'a [Lexeme],
) -> Result<(Items<Pattern>, &'a [Lexeme]), Refusal>
    ensures reads { IfOk result (λ r. MoreGot subject.now tokens.now r.0 r.1.now) }
    ensures shorter { IfOk result (λ r. length r.1.now ≤ length tokens.now) }
    ensures refuses { IfErr result (λ e. MoreStops tokens.now e) }
{
    if verb_ahead(tokens) {
        let (patterns, rest) = read_pair(alloc, subject, tokens)?;
        Ok((patterns, rest))
    } else {
        Ok((Items::new(alloc), tokens))
    }
}

// Triples of one subject.
#[tactic(auto, using(crate::specs::TripleSteps::same_paths))]
fn read_same(alloc: Global, tokens: &[Lexeme]) -> Result<(Items<Pattern>, &[Lexeme]), Refusal>
    ensures reads { IfOk result (λ r. Gets Same_ tokens.now (patterns r.0) r.1.now) }
    ensures shorter { IfOk result (λ r. length r.1.now < length tokens.now) }
    ensures refuses { IfErr result (λ e. Stops Same_ tokens.now e) }
{
    let (subject, rest) = read_term(alloc, tokens)?;
    let (mut patterns, mut rest) = read_pair(alloc, &subject, rest)?;
    while let Some(after) = after_sign(rest, Sign::Semicolon) {
        let (more, after) = read_more(alloc, &subject, after)?;
        patterns.append(more)?;
        rest = after;
    }
    Ok((patterns, rest))
}

/// Reads triples with full stops between them and maybe one behind; the patterns aren't numbered yet.
#[tactic(auto, using(crate::specs::TripleSteps::triples_paths))]
pub fn read_triples(
    alloc: Global,
    tokens: &[Lexeme],
) -> Result<(Items<Pattern>, &[Lexeme]), Refusal>
    ensures reads { IfOk result (λ r. Gets Triples_ tokens.now (patterns r.0) r.1.now) }
    ensures shorter { IfOk result (λ r. length r.1.now < length tokens.now) }
    ensures refuses { IfErr result (λ e. Stops Triples_ tokens.now e) }
{
    let (mut patterns, rest) = read_same(alloc, tokens)?;
    match after_sign(rest, Sign::Dot) {
        None => Ok((patterns, rest)),
        Some(rest) => {
            if term_ahead(rest) {
                let (more, rest) = read_triples(alloc, rest)?;
                patterns.append(more)?;
                Ok((patterns, rest))
            } else {
                Ok((patterns, rest))
            }
        }
    }
}
