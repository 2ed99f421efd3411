//! Groups, optional groups, unions and filters.

ghost use Rattle.std.specs.Prelude.{IfOk, IfErr, ◌<◌, length};
ghost use Rattle.sparql_grammar_meaning.specs.Grammar.{Group_, Other_, elements, an_element};
ghost use Rattle.sparql_grammar_meaning.specs.declared.lexeme.Sign.TheVariants as signs;
ghost use Rattle.sparql_cursor.specs.Outcomes.{Gets, Stops};
ghost use Rattle.sparql_groups.specs.GroupSteps.{PartGot, PartStops};
ghost use Rattle.sparql_groups.specs.UnionSteps.{UnionsGot, UnionsStop};

use crate::parts::{leaf_of, part_of, read_may_triples};
use query_meaning::{Element, Group};
use sparql_conditions::read_condition;
use sparql_cursor::{Refusal, after_sign, other_ahead};
use sparql_grammar_meaning::{Lexeme, Sign};
use sqlite_items::Items;
use std::alloc::Global;

// An element that is no triple, and what stands behind it up to the next one.
#[cycle(groups)]
#[tactic(auto, using(crate::specs::GroupSteps::part_paths))]
fn read_part(alloc: Global, tokens: &[Lexeme]) -> Result<(Items<Element>, &[Lexeme]), Refusal>
    ensures reads { IfOk result (λ r. PartGot tokens.now r.0 r.1.now) }
    ensures shorter { IfOk result (λ r. length r.1.now < length tokens.now) }
    ensures refuses { IfErr result (λ e. PartStops tokens.now e) }
{
    let (element, rest) = read_other(alloc, tokens)?;
    match after_sign(rest, Sign::Dot) {
        Some(rest) => {
            let (patterns, rest) = read_may_triples(alloc, rest)?;
            Ok((part_of(alloc, element, patterns)?, rest))
        }
        None => {
            let (patterns, rest) = read_may_triples(alloc, rest)?;
            Ok((part_of(alloc, element, patterns)?, rest))
        }
    }
}

#[cycle(groups)]
#[tactic(auto, using(crate::specs::GroupSteps::other_paths))]
fn read_other(alloc: Global, tokens: &[Lexeme]) -> Result<(Element, &[Lexeme]), Refusal>
    ensures reads { IfOk result (λ r. Gets Other_ tokens.now (an_element r.0) r.1.now) }
    ensures shorter { IfOk result (λ r. length r.1.now < length tokens.now) }
    ensures refuses { IfErr result (λ e. Stops Other_ tokens.now e) }
{
    if let Some(rest) = after_sign(tokens, Sign::Optional) {
        let (elements, rest) = read_group(alloc, rest)?;
        return Ok((Element::Optional(Group { elements }), rest));
    }
    if let Some(rest) = after_sign(tokens, Sign::Filter) {
        let (condition, rest) = read_condition(alloc, rest)?;
        return Ok((Element::Condition(condition), rest));
    }
    let (groups, rest) = read_unions(alloc, tokens)?;
    Ok((Element::Unions(groups), rest))
}

// Groups with `UNION` between them.
#[cycle(groups)]
#[tactic(auto, using(crate::specs::UnionSteps::union_paths))]
fn read_unions(alloc: Global, tokens: &[Lexeme]) -> Result<(Items<Group>, &[Lexeme]), Refusal>
    ensures reads { IfOk result (λ r. UnionsGot tokens.now r.0 r.1.now) }
    ensures shorter { IfOk result (λ r. length r.1.now < length tokens.now) }
    ensures refuses { IfErr result (λ e. UnionsStop tokens.now e) }
{
    let (elements, mut rest) = read_group(alloc, tokens)?;
    let mut groups = Items::new(alloc);
    groups.push(Group { elements })?;
    while let Some(after) = after_sign(rest, Sign::Union) {
        let (elements, after) = read_group(alloc, after)?;
        groups.push(Group { elements })?;
        rest = after;
    }
    Ok((groups, rest))
}

/// Reads what stands between a pair of braces, with them; the patterns aren't numbered yet.
#[cycle(groups)]
#[tactic(auto, using(crate::specs::GroupSteps::group_paths))]
pub fn read_group(alloc: Global, tokens: &[Lexeme]) -> Result<(Items<Element>, &[Lexeme]), Refusal>
    ensures reads { IfOk result (λ r. Gets Group_ tokens.now (elements r.0) r.1.now) }
    ensures shorter { IfOk result (λ r. length r.1.now < length tokens.now) }
    ensures refuses { IfErr result (λ e. Stops Group_ tokens.now e) }
{
    let Some(inner) = after_sign(tokens, Sign::OpenBrace) else {
        return Err(Refusal::Syntax { left: tokens.len() })
    };
    let (patterns, mut rest) = read_may_triples(alloc, inner)?;
    let mut elements = leaf_of(alloc, patterns)?;
    'parts: while other_ahead(rest) {
        let (part, after) = read_part(alloc, rest)?;
        elements.append(part)?;
        rest = after;
    }
    match after_sign(rest, Sign::CloseBrace) {
        Some(rest) => Ok((elements, rest)),
        None => Err(Refusal::Syntax { left: rest.len() }),
    }
}
