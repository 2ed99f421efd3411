//! The ids of given terms.

ghost use Rattle.std.specs.Prelude.{◌≡◌, IfOk};
ghost use Rattle.std.specs.List.{IsDistinct};
ghost use Rattle.rdf_meaning.specs.Terms.{same_term};
ghost use Rattle.layout_standing_meaning.specs.Dictionary.{entries_of, id_of};
ghost use Rattle.layout_facts_meaning.specs.Facts.{id_told, ids_told};

use pred_columns::{IdPair, QueryIds};
use rdf_meaning::Term;
use std::alloc::{AllocError, Global};
use term_book::TermBook;

/// The id that a term has, or 0.
pub fn id_of(book: &TermBook, t: &Term) -> u32
    requires { IsDistinct same_term book.now }
    ensures { result ≡ id_of (entries_of book.now) t.now }
{
    match book.find(t) {
        Some(id) => id.number(),
        None => 0,
    }
}

fn pair(alloc: Global, book: &TermBook, t: &Term) -> Result<IdPair, AllocError>
    requires { IsDistinct same_term book.now }
    ensures { IfOk result (λ pair. pair ≡ id_told (entries_of book.now) t.now) }
{
    Ok(IdPair {
        term: t.copy(alloc)?,
        id: id_of(book, t),
    })
}

/// Given terms with the ids that they have, or 0, in the order given.
pub fn ids_of(alloc: Global, book: &TermBook, terms: &[Term]) -> Result<QueryIds, AllocError>
    requires { IsDistinct same_term book.now }
    ensures { IfOk result (λ ids. ids ≡ ids_told (entries_of book.now) terms.now) }
{
    let mut pairs = Vec::new(alloc);
    for at in 0..terms.len() {
        pairs.push(pair(alloc, book, &terms[at])?)?;
    }
    Ok(QueryIds { pairs })
}
