//! Objects of one predicate, and the patterns of one subject.

ghost use Rattle.std.specs.Prelude.{IfOk, IfErr, ◌≡◌, ◌<◌, length};
ghost use Rattle.sparql_grammar_meaning.specs.Grammar.{Objs_, slots, pattern_of, patterns_of};
ghost use Rattle.sparql_cursor.specs.Outcomes.{Gets, Stops};

use crate::terms::read_term;
use query_meaning::{Pattern, Slot};
use sparql_cursor::{Refusal, after_sign};
use sparql_grammar_meaning::{Lexeme, Sign};
use sqlite_items::Items;
use std::alloc::{AllocError, Global};

/// Reads objects with commas between them.
#[tactic(auto, using(crate::specs::TripleSteps::objects_paths))]
pub(crate) fn read_objects(
    alloc: Global,
    tokens: &[Lexeme],
) -> Result<(Items<Slot>, &[Lexeme]), Refusal>
    ensures reads { IfOk result (λ r. Gets Objs_ tokens.now (slots r.0) r.1.now) }
    ensures shorter { IfOk result (λ r. length r.1.now < length tokens.now) }
    ensures refuses { IfErr result (λ e. Stops Objs_ tokens.now e) }
{
    let (first, mut rest) = read_term(alloc, tokens)?;
    let mut objects = Items::new(alloc);
    objects.push(first)?;
    while let Some(after) = after_sign(rest, Sign::Comma) {
        let (object, after) = read_term(alloc, after)?;
        objects.push(object)?;
        rest = after;
    }
    Ok((objects, rest))
}

/// An equal slot.
pub(crate) fn copy_slot(alloc: Global, slot: &Slot) -> Result<Slot, AllocError>
    ensures { IfOk result (λ x. x ≡ slot.now) }
{
    match slot {
        Slot::Var(v) => Ok(Slot::Var(*v)),
        Slot::Const(term) => Ok(Slot::Const(term.copy(alloc)?)),
    }
}

fn pattern_of(
    alloc: Global,
    subject: &Slot,
    verb: &Slot,
    object: &Slot,
) -> Result<Pattern, AllocError>
    ensures { IfOk result (λ x. x ≡ pattern_of subject.now verb.now object.now) }
{
    Ok(Pattern {
        number: 0,
        s: copy_slot(alloc, subject)?,
        p: copy_slot(alloc, verb)?,
        o: copy_slot(alloc, object)?,
    })
}

/// Patterns of one subject and one predicate, not numbered yet.
pub(crate) fn patterns_of(
    alloc: Global,
    subject: &Slot,
    verb: &Slot,
    objects: &[Slot],
) -> Result<Items<Pattern>, AllocError>
    ensures { IfOk result (λ r. r ≡ patterns_of subject.now verb.now objects.now) }
{
    let mut patterns = Items::new(alloc);
    for object in objects {
        let pattern = pattern_of(alloc, subject, verb, object)?;
        patterns.push(pattern)?;
    }
    Ok(patterns)
}
