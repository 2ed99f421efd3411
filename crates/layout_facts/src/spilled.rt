//! Which of given predicates are spilled on a side.

ghost use Rattle.std.specs.Prelude.{◌≡◌, ◌∷◌, ◌++◌, [], if◌then◌else◌, nat_eq, Some, None, IfOk, OnOk};
ghost use Rattle.std.specs.List.{IsDistinct, list_any};
ghost use Rattle.indexmap.specs.IndexSet.{insert_key};
ghost use Rattle.rdf_meaning.specs.Terms.{same_term};
ghost use Rattle.layout_standing_meaning.specs.Dictionary.{entries_of, id_of};
ghost use Rattle.layout_standing_meaning.specs.Contents.{side_contents};
ghost use Rattle.layout_standing_meaning.specs.Changes.{with_term};
ghost use Rattle.layout_facts_meaning.specs.Facts.{is_spilled_term, spilled_among};
ghost use Rattle.layout_facts.specs.Kept.{AreIdsOf};

use indexmap::IndexSet;
use primary_rows::Side;
use rdf_meaning::Term;
use std::alloc::{AllocError, Global};
use term_book::TermBook;

/// The id of a predicate, if some entity of a side holds it behind its first row.
fn spilled_id(book: &TermBook, side: &Side, t: &Term) -> Option<u32>
    requires { IsDistinct same_term book.now }
    ensures { result ≡ (if is_spilled_term (entries_of book.now) (side_contents side.now.state) t.now then Some (id_of (entries_of book.now) t.now) else None) }
{
    let id = book.find(t)?.number();
    if side.spilled(id) { Some(id) } else { None }
}

/// Puts a term last, unless its id is there.
fn push_once(
    kept: &mut Vec<Term>,
    ids: &mut IndexSet<u32>,
    alloc: Global,
    id: u32,
    t: &Term,
) -> Result<(), AllocError>
    ensures ids { OnOk result (ids.new.keys ≡ insert_key nat_eq ids.old.keys id) }
    ensures kept { OnOk result (kept.new.items ≡ (if list_any (nat_eq id) ids.old.keys then kept.old.items else kept.old.items ++ t.now ∷ [])) }
{
    if ids.insert(id)? {
        kept.push(t.copy(alloc)?)?;
    }
    Ok(())
}

/// Puts a predicate last if it is spilled and isn't there.
fn push_spilled(
    kept: &mut Vec<Term>,
    ids: &mut IndexSet<u32>,
    alloc: Global,
    book: &TermBook,
    side: &Side,
    t: &Term,
) -> Result<(), AllocError>
    requires distinct { IsDistinct same_term book.now }
    requires ids { AreIdsOf (entries_of book.now) kept.old.items ids.old.keys }
    ensures kept { OnOk result (kept.new.items ≡ (if is_spilled_term (entries_of book.now) (side_contents side.now.state) t.now then with_term kept.old.items t.now else kept.old.items)) }
    ensures ids { OnOk result (AreIdsOf (entries_of book.now) kept.new.items ids.new.keys) }
{
    match spilled_id(book, side, t) {
        Some(id) => push_once(kept, ids, alloc, id, t),
        None => Ok(()),
    }
}

/// The predicates, out of given ones, that are spilled on a side: in the order given, each once.
pub fn spilled_among(
    alloc: Global,
    book: &TermBook,
    side: &Side,
    preds: &[Term],
) -> Result<Vec<Term>, AllocError>
    requires { IsDistinct same_term book.now }
    ensures { IfOk result (λ kept. kept.items ≡ spilled_among (entries_of book.now) (side_contents side.now.state) preds.now) }
{
    let mut kept = Vec::new(alloc);
    let mut ids = IndexSet::new(alloc);
    for at in 0..preds.len() {
        push_spilled(&mut kept, &mut ids, alloc, book, side, &preds[at])?;
    }
    Ok(kept)
}
