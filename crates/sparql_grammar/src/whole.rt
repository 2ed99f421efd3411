//! Whole queries.

ghost use Rattle.std.specs.Prelude.{IfOk, IfErr};
ghost use Rattle.sparql_grammar_meaning.specs.Grammar.{Query_, a_query};
ghost use Rattle.sparql_cursor.specs.Outcomes.{Gets, Stops, IsText, Rejects};
ghost use Rattle.sparql_grammar.specs.QuerySteps.{TailGot, TailStops};
ghost use Rattle.sparql_grammar.specs.Written.{written};

use query_meaning::{Element, Key, VarId};
use sparql_cursor::{Refusal, next};
use sparql_grammar_meaning::Lexeme;
use sparql_groups::read_group;
use sparql_head::{Head, read_head};
use sparql_modifiers::{Slice, read_may_order, read_may_slice};
use sqlite_items::Items;
use std::alloc::Global;

/// A query by the grammar: its variables have numbers, and its patterns have none yet.
#[derive(Debug, Drop)]
pub struct Written {
    pub distinct: bool,
    /// The variables behind `SELECT`, or none for `*`.
    pub shown: Option<Items<VarId>>,
    pub elements: Items<Element>,
    pub keys: Items<Key>,
    pub slice: Slice,
}

#[derive(Debug, Drop)]
struct Tail {
    elements: Items<Element>,
    keys: Items<Key>,
    slice: Slice,
}

// The group and what stands behind it.
#[tactic(auto, using(crate::specs::QuerySteps::tail_paths))]
fn read_tail(alloc: Global, tokens: &[Lexeme]) -> Result<(Tail, &[Lexeme]), Refusal>
    ensures reads { IfOk result (λ r. TailGot tokens.now r.0.elements r.0.keys r.0.slice r.1.now) }
    ensures refuses { IfErr result (λ e. TailStops tokens.now e) }
{
    let (elements, rest) = read_group(alloc, tokens)?;
    let (keys, rest) = read_may_order(alloc, rest)?;
    let (slice, rest) = read_may_slice(rest)?;
    Ok((
        Tail {
            elements,
            keys,
            slice,
        },
        rest,
    ))
}

#[tactic(auto, using(crate::specs::QuerySteps::query_paths))]
fn read_front(alloc: Global, tokens: &[Lexeme]) -> Result<(Written, &[Lexeme]), Refusal>
    ensures reads { IfOk result (λ r. Gets Query_ tokens.now (a_query (written r.0)) r.1.now) }
    ensures refuses { IfErr result (λ e. Stops Query_ tokens.now e) }
{
    let (head, rest) = read_head(alloc, tokens)?;
    let (tail, rest) = read_tail(alloc, rest)?;
    let Head { distinct, shown } = head;
    let Tail {
        elements,
        keys,
        slice,
    } = tail;
    Ok((
        Written {
            distinct,
            shown,
            elements,
            keys,
            slice,
        },
        rest,
    ))
}

/// Reads all the tokens as a query: what is read is the one reading of the grammar. Syntax names the
/// first token with which the tokens begin no query, or their end where they begin one and are none.
#[tactic(auto, using(crate::specs::QuerySteps::whole_paths))]
pub fn read_written(alloc: Global, tokens: &[Lexeme]) -> Result<Written, Refusal>
    ensures ok { IfOk result (λ x. IsText Query_ tokens.now (a_query (written x))) }
    ensures err { IfErr result (λ e. Rejects Query_ tokens.now e) }
{
    let (written, rest) = read_front(alloc, tokens)?;
    match next(rest) {
        None => Ok(written),
        Some(_) => Err(Refusal::Syntax { left: rest.len() }),
    }
}
