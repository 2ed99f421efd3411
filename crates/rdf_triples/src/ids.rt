//! Triples as numbers of terms.

ghost use Rattle.std.specs.Prelude.{◌≡◌, ◌<◌, ◌≤◌, length, IfOk, OnOk, IsErrOf, MatchOption};
ghost use Rattle.line_change_meaning.specs.declared.change.Change.TheVariants.{Add};
ghost use Rattle.run_meaning.specs.Limits.{with_term, with_needed};
ghost use Rattle.term_book.specs.Book.{HasId};
ghost use Rattle.rdf_triples.specs.Held.{HasIds, LacksTerm, Grows};

use rdf_meaning::{Term, TermId, Triple};
use std::alloc::Global;
use term_book::{BookRefusal, TermBook};

/// A triple, by the ids of its terms in a dictionary.
#[derive(Clone, Copy, Debug, PartialEq, Eq, Hash)]
pub(crate) struct IdTriple {
    pub(crate) subject: TermId,
    pub(crate) predicate: TermId,
    pub(crate) object: TermId,
}

/// The ids of a triple's terms; None exactly where one of these isn't held.
pub(crate) fn ids_of(terms: &TermBook, triple: &Triple) -> Option<IdTriple>
    ensures { MatchOption result (LacksTerm terms.now triple.now) (HasIds terms.now triple.now) }
{
    Some(IdTriple {
        subject: terms.find(&triple.s)?,
        predicate: terms.find(&triple.p)?,
        object: terms.find(&triple.o)?,
    })
}

// Notes a term that an addition needs.
fn note_term(terms: &mut TermBook, alloc: Global, term: &Term) -> Result<TermId, BookRefusal>
    ensures id { IfOk result (HasId terms.new term.now) }
    ensures ok { OnOk result (terms.new ≡ with_term terms.old term.now) }
    ensures grows { Grows terms.old terms.new }
    ensures full { IsErrOf result BookRefusal.Full → 4000000 < length (with_term terms.old term.now) }
{
    terms.intern(alloc, term)
}

/// Notes the terms that an added triple needs: subject, predicate, object. Full comes exactly where
/// the dictionary would hold more than 4,000,000 terms; after an error it may hold some of the
/// three.
pub(crate) fn note_terms(
    terms: &mut TermBook,
    alloc: Global,
    triple: &Triple,
) -> Result<IdTriple, BookRefusal>
    ensures ids { IfOk result (HasIds terms.new triple.now) }
    ensures ok { OnOk result (terms.new ≡ with_needed terms.old (Add triple.now)) }
    ensures within { OnOk result (length terms.new ≤ 4000000) }
    ensures grows { Grows terms.old terms.new }
    ensures full { IsErrOf result BookRefusal.Full → 4000000 < length (with_needed terms.old (Add triple.now)) }
{
    let subject = note_term(terms, alloc, &triple.s)?;
    let predicate = note_term(terms, alloc, &triple.p)?;
    let object = note_term(terms, alloc, &triple.o)?;
    let held = terms.count();
    prove!(held <= 4_000_000);
    Ok(IdTriple {
        subject,
        predicate,
        object,
    })
}
