//! Triples in a group, and the elements that they make.

ghost use Rattle.std.specs.Prelude.{IfOk, IfErr, ◌≡◌, ◌≤◌, ◌∷◌, [], length};
ghost use Rattle.sparql_grammar_meaning.specs.Grammar.{leaf};
ghost use Rattle.sparql_groups.specs.GroupSteps.{MayTriples, MayStops};

use query_meaning::{Element, Pattern};
use sparql_cursor::{Refusal, term_ahead};
use sparql_grammar_meaning::Lexeme;
use sparql_terms::read_triples;
use sqlite_items::Items;
use std::alloc::{AllocError, Global};

/// Reads triples, if any begin here.
#[tactic(auto, using(crate::specs::GroupSteps::may_paths))]
pub(crate) fn read_may_triples(
    alloc: Global,
    tokens: &[Lexeme],
) -> Result<(Items<Pattern>, &[Lexeme]), Refusal>
    ensures reads { IfOk result (λ r. MayTriples tokens.now r.0 r.1.now) }
    ensures shorter { IfOk result (λ r. length r.1.now ≤ length tokens.now) }
    ensures refuses { IfErr result (λ e. MayStops tokens.now e) }
{
    if term_ahead(tokens) {
        let (patterns, rest) = read_triples(alloc, tokens)?;
        Ok((patterns, rest))
    } else {
        Ok((Items::new(alloc), tokens))
    }
}

/// The element of these triples, if there are any.
pub(crate) fn leaf_of(alloc: Global, patterns: Items<Pattern>) -> Result<Items<Element>, AllocError>
    ensures { IfOk result (λ r. r ≡ leaf patterns []) }
{
    let mut elements = Items::new(alloc);
    if !patterns.is_empty() {
        elements.push(Element::Triples(patterns))?;
    }
    Ok(elements)
}

/// An element, and the triples behind it.
pub(crate) fn part_of(
    alloc: Global,
    element: Element,
    patterns: Items<Pattern>,
) -> Result<Items<Element>, AllocError>
    ensures { IfOk result (λ r. r ≡ element ∷ leaf patterns []) }
{
    let mut part = Items::new(alloc);
    part.push(element)?;
    let more = leaf_of(alloc, patterns)?;
    part.append(more)?;
    Ok(part)
}
