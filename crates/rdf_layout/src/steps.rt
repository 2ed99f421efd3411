//! Single triples: they are put into a dictionary and two sides, and taken out.

ghost use Rattle.std.specs.Prelude.{◌≡◌, ◌≤◌, length, IfOk, IfErr, OnOk, OnErr, Ok};
ghost use Rattle.value_lists.specs.Answers.{put_of};
ghost use Rattle.primary_rows.specs.Answers.{took_of};
ghost use Rattle.layout_standing_meaning.specs.Dictionary.{IsTriple};
ghost use Rattle.layout_standing_meaning.specs.Stored.{IsStore};
ghost use Rattle.layout_standing_meaning.specs.Changes.{store_of, is_stored, stored_in, taken_out, IsRefused};
ghost use Rattle.rdf_layout.specs.Refused.{Refuses, HasRoom};

use crate::noted::noted;
use crate::refusal::{MOST_TRIPLES, StoreRefusal};
use layout_ids::{find, has_forms};
use layout_sides::TripleSides;
use primary_rows::Took;
use rdf_meaning::{Text, Triple};
use std::alloc::Global;
use term_book::TermBook;
use value_lists::Put;

/// The IRI of a triple's predicate.
fn predicate_text(t: &Triple) -> &Text
    ensures { result.now ≡ t.now.p.text }
{
    let predicate = &t.p;
    &predicate.text
}

/// Puts a triple into a dictionary and two sides.
pub(crate) fn put(
    book: &mut TermBook,
    sides: &mut TripleSides,
    alloc: Global,
    t: &Triple,
) -> Result<Put, StoreRefusal>
    requires store { IsStore (store_of book.old sides.old) }
    requires few { length book.old ≤ 4000000 }
    ensures stored { OnOk result (store_of book.new sides.new ≡ stored_in (store_of book.old sides.old) t.now) }
    ensures put { IfOk result (λ put. put ≡ put_of (is_stored (store_of book.old sides.old) t.now)) }
    ensures room { result ≡ Ok Put.Added → HasRoom (store_of book.old sides.old) t.now }
    ensures refused { IfErr result (λ e. Refuses e (store_of book.old sides.old) t.now) }
    ensures err { OnErr result (IsRefused (store_of book.old sides.old) t.now (store_of book.new sides.new)) }
    ensures store { IsStore (store_of book.new sides.new) }
    ensures few { length book.new ≤ 4000000 }
    ensures form { IsTriple t.now }
{
    has_forms(t);
    let full = sides.count() >= MOST_TRIPLES;
    let ids = noted(book, alloc, t, full)?;
    if full {
        return if sides.holds(ids) {
            Ok(Put::There)
        } else {
            Err(StoreRefusal::Triples)
        };
    }
    Ok(sides.insert(alloc, ids, predicate_text(t))?)
}

/// Takes a triple out of two sides. It takes no memory.
pub(crate) fn take(book: &TermBook, sides: &mut TripleSides, t: &Triple) -> Took
    requires store { IsStore (store_of book.now sides.old) }
    ensures stored { store_of book.now sides.new ≡ taken_out (store_of book.now sides.old) t.now }
    ensures took { result ≡ took_of (is_stored (store_of book.now sides.old) t.now) }
    ensures store { IsStore (store_of book.now sides.new) }
{
    match find(book, t) {
        Some(ids) => sides.delete(ids),
        None => Took::Absent,
    }
}
