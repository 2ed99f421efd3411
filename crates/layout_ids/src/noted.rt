//! Terms that are noted and found.

ghost use Rattle.std.specs.Prelude.{◌≡◌, ◌≤◌, ◌<◌, length, Err, IfOk, OnOk, OnErr, MatchOption};
ghost use Rattle.layout_standing_meaning.specs.Dictionary.{IsTerm, IsTriple};
ghost use Rattle.layout_standing_meaning.specs.Changes.{with_term, with_terms, AreSomeNoted};
ghost use Rattle.term_book.specs.Book.{HasId};
ghost use Rattle.layout_ids.specs.Noted.{HaveIds, LacksTerm};

use layout_sides::IdTriple;
use rdf_meaning::{Term, TermId, Triple};
use std::alloc::Global;
use term_book::{BookRefusal, TermBook};

/// Gives an id to a term.
fn note_term(book: &mut TermBook, alloc: Global, t: &Term) -> Result<TermId, BookRefusal>
    requires few { length book.old ≤ 4000000 }
    ensures id { IfOk result (HasId book.new t.now) }
    ensures book { OnOk result (book.new ≡ with_term book.old t.now) }
    ensures room { OnOk result (length (with_term book.old t.now) ≤ 4000000) }
    ensures full { result ≡ Err BookRefusal.Full → 4000000 < length (with_term book.old t.now) }
    ensures err { OnErr result (book.new ≡ book.old) }
{
    book.intern(alloc, t)
}

/// Gives ids to the terms of a triple: subject, predicate, object. Full comes exactly where the dictionary
/// would pass 4,000,000 terms. After an error some of the terms may be noted.
pub fn note(book: &mut TermBook, alloc: Global, t: &Triple) -> Result<IdTriple, BookRefusal>
    requires few { length book.old ≤ 4000000 }
    ensures ids { IfOk result (HaveIds book.new t.now) }
    ensures book { OnOk result (book.new ≡ with_terms book.old t.now) }
    ensures room { OnOk result (length (with_terms book.old t.now) ≤ 4000000) }
    ensures full { result ≡ Err BookRefusal.Full → 4000000 < length (with_terms book.old t.now) }
    ensures err { OnErr result (AreSomeNoted book.old t.now book.new) }
    ensures few { length book.new ≤ 4000000 }
{
    let subject = match note_term(book, alloc, &t.s) {
        Ok(subject) => subject,
        Err(refusal) => return Err(refusal),
    };
    let predicate = match note_term(book, alloc, &t.p) {
        Ok(predicate) => predicate,
        Err(refusal) => return Err(refusal),
    };
    let object = match note_term(book, alloc, &t.o) {
        Ok(object) => object,
        Err(refusal) => return Err(refusal),
    };
    Ok(IdTriple {
        subject,
        predicate,
        object,
    })
}

/// The ids of the terms of a triple. None comes exactly where one of them has none.
pub fn find(book: &TermBook, t: &Triple) -> Option<IdTriple>
    ensures { MatchOption result (LacksTerm book.now t.now) (HaveIds book.now t.now) }
{
    let Some(subject) = book.find(&t.s) else {
        return None;
    };
    let Some(predicate) = book.find(&t.p) else {
        return None;
    };
    let Some(object) = book.find(&t.o) else {
        return None;
    };
    Some(IdTriple {
        subject,
        predicate,
        object,
    })
}

/// The form of a term is a part of its type.
fn has_form(t: &Term)
    ensures { IsTerm t.now }
{
    let _kind = t.kind;
}

/// The form of a triple is a part of its type.
pub fn has_forms(t: &Triple)
    ensures { IsTriple t.now }
{
    has_form(&t.s);
    has_form(&t.p);
    has_form(&t.o);
}
