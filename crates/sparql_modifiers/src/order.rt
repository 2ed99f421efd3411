//! The keys of an order.

ghost use Rattle.std.specs.Prelude.{IfOk, IfErr, ◌∷◌, ◌<◌, ◌≤◌, length};
ghost use Rattle.sparql_grammar_meaning.specs.Grammar.{Key_, Order_, a_key, keys};
ghost use Rattle.sparql_grammar_meaning.specs.declared.lexeme.Lexeme.TheVariants as lexeme;
ghost use Rattle.sparql_grammar_meaning.specs.declared.lexeme.Sign.TheVariants as signs;
ghost use Rattle.sparql_cursor.specs.Outcomes.{Gets, Stops};
ghost use Rattle.sparql_modifiers.specs.OrderSteps.{MayOrder, MayOrderStops};

use crate::next::after_direction;
use query_meaning::Key;
use sparql_cursor::{Refusal, after_sign, after_variable, key_ahead};
use sparql_grammar_meaning::{Lexeme, Sign};
use sqlite_items::Items;
use std::alloc::Global;

// A variable in brackets, behind `ASC` or `DESC`.
#[tactic(auto, using(crate::specs::OrderSteps::direction_paths))]
fn read_directed(down: bool, tokens: &[Lexeme]) -> Result<(Key, &[Lexeme]), Refusal>
    ensures reads { IfOk result (λ r. Gets Key_ (lexeme.Direction down ∷ tokens.now) (a_key r.0) r.1.now) }
    ensures shorter { IfOk result (λ r. length r.1.now < length tokens.now) }
    ensures refuses { IfErr result (λ e. Stops Key_ (lexeme.Direction down ∷ tokens.now) e) }
{
    let Some(inner) = after_sign(tokens, Sign::OpenBracket) else {
        return Err(Refusal::Syntax { left: tokens.len() })
    };
    let Some((var, rest)) = after_variable(inner) else {
        return Err(Refusal::Syntax { left: inner.len() })
    };
    match after_sign(rest, Sign::CloseBracket) {
        Some(rest) => Ok((Key { var, down }, rest)),
        None => Err(Refusal::Syntax { left: rest.len() }),
    }
}

#[tactic(auto, using(crate::specs::OrderSteps::key_paths))]
fn read_key(tokens: &[Lexeme]) -> Result<(Key, &[Lexeme]), Refusal>
    ensures reads { IfOk result (λ r. Gets Key_ tokens.now (a_key r.0) r.1.now) }
    ensures shorter { IfOk result (λ r. length r.1.now < length tokens.now) }
    ensures refuses { IfErr result (λ e. Stops Key_ tokens.now e) }
{
    if let Some((var, rest)) = after_variable(tokens) {
        return Ok((Key { var, down: false }, rest));
    }
    match after_direction(tokens) {
        Some((down, rest)) => read_directed(down, rest),
        None => Err(Refusal::Syntax { left: tokens.len() }),
    }
}

// What stands behind `ORDER`.
#[tactic(auto, using(crate::specs::OrderSteps::order_paths))]
fn read_order(alloc: Global, tokens: &[Lexeme]) -> Result<(Items<Key>, &[Lexeme]), Refusal>
    ensures reads { IfOk result (λ r. Gets Order_ (lexeme.Sign signs.Order ∷ tokens.now) (keys r.0) r.1.now) }
    ensures shorter { IfOk result (λ r. length r.1.now < length tokens.now) }
    ensures refuses { IfErr result (λ e. Stops Order_ (lexeme.Sign signs.Order ∷ tokens.now) e) }
{
    let Some(rest) = after_sign(tokens, Sign::By) else {
        return Err(Refusal::Syntax { left: tokens.len() })
    };
    let (first, mut rest) = match read_key(rest) {
        Ok((key, rest)) => (key, rest),
        Err(refusal) => return Err(refusal),
    };
    let mut keys = Items::new(alloc);
    keys.push(first)?;
    'keys: while key_ahead(rest) {
        match read_key(rest) {
            Ok((key, after)) => {
                keys.push(key)?;
                rest = after;
            }
            Err(refusal) => return Err(refusal),
        }
    }
    Ok((keys, rest))
}

/// Reads an order, if one begins here.
#[tactic(auto, using(crate::specs::OrderSteps::may_paths))]
pub fn read_may_order(alloc: Global, tokens: &[Lexeme]) -> Result<(Items<Key>, &[Lexeme]), Refusal>
    ensures reads { IfOk result (λ r. MayOrder tokens.now r.0 r.1.now) }
    ensures shorter { IfOk result (λ r. length r.1.now ≤ length tokens.now) }
    ensures refuses { IfErr result (λ e. MayOrderStops tokens.now e) }
{
    match after_sign(tokens, Sign::Order) {
        Some(rest) => {
            let (keys, rest) = read_order(alloc, rest)?;
            Ok((keys, rest))
        }
        None => Ok((Items::new(alloc), tokens)),
    }
}
