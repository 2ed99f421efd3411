//! Triples whose terms are noted.

ghost use Rattle.std.specs.Prelude.{◌≡◌, ◌≢◌, ◌≤◌, ◌<◌, if◌then◌else◌, length, IfOk, IfErr, OnOk, OnErr};
ghost use Rattle.layout_standing_meaning.specs.Changes.{with_terms, AreSomeNoted};
ghost use Rattle.layout_ids.specs.Noted.{HaveIds};

use crate::refusal::{StoreRefusal, of_book};
use layout_ids::note;
use layout_sides::IdTriple;
use rdf_meaning::Triple;
use std::alloc::Global;
use term_book::TermBook;

/// Gives ids to the terms of a triple. Where the dictionary would pass 4,000,000 terms, the refusal is Triples if as
/// many triples are stored as may be, or else Terms.
pub(crate) fn noted(
    book: &mut TermBook,
    alloc: Global,
    t: &Triple,
    full: bool,
) -> Result<IdTriple, StoreRefusal>
    requires few { length book.old ≤ 4000000 }
    ensures ids { IfOk result (HaveIds book.new t.now) }
    ensures book { OnOk result (book.new ≡ with_terms book.old t.now) }
    ensures room { OnOk result (length (with_terms book.old t.now) ≤ 4000000) }
    ensures refused { IfErr result (λ e. e ≢ StoreRefusal.NoMemory → (e ≡ (if full then StoreRefusal.Triples else StoreRefusal.Terms)) × (4000000 < length (with_terms book.old t.now))) }
    ensures err { OnErr result (AreSomeNoted book.old t.now book.new) }
    ensures few { length book.new ≤ 4000000 }
{
    match note(book, alloc, t) {
        Ok(ids) => Ok(ids),
        Err(refusal) => Err(of_book(refusal, full)),
    }
}
