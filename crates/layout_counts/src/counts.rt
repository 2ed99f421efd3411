//! How many triples, subjects and objects there are, and the triples of given terms.

ghost use Rattle.std.specs.Prelude.{◌≡◌, map, IfOk};
ghost use Rattle.layout_standing_meaning.specs.Stored.{IsStore, stored_triples};
ghost use Rattle.layout_standing_meaning.specs.Changes.{store_of};
ghost use Rattle.layout_counts_meaning.specs.Counts.{count_of, counts_over};

use layout_facts::id_of;
use layout_sides::TripleSides;
use pred_columns::{ConstCount, Counts};
use rdf_meaning::Term;
use std::alloc::{AllocError, Global};
use term_book::TermBook;

/// A term, and in how many triples it is the subject and the object.
fn count_of(
    alloc: Global,
    book: &TermBook,
    sides: &TripleSides,
    t: &Term,
) -> Result<ConstCount, AllocError>
    requires { IsStore (store_of book.now sides.now) }
    ensures { IfOk result (λ count. count ≡ count_of (stored_triples (store_of book.now sides.now)) t.now) }
{
    let id = id_of(book, t);
    Ok(ConstCount {
        term: t.copy(alloc)?,
        as_subject: sides.direct().values_of(id),
        as_object: sides.reverse().values_of(id),
    })
}

/// The counts of given terms, in the order given.
fn counts_of_each(
    alloc: Global,
    book: &TermBook,
    sides: &TripleSides,
    terms: &[Term],
) -> Result<Vec<ConstCount>, AllocError>
    requires { IsStore (store_of book.now sides.now) }
    ensures { IfOk result (λ counts. counts.items ≡ map (count_of (stored_triples (store_of book.now sides.now))) terms.now) }
{
    let mut counts = Vec::new(alloc);
    for at in 0..terms.len() {
        counts.push(count_of(alloc, book, sides, &terms[at])?)?;
    }
    Ok(counts)
}

/// How many triples, distinct subjects and distinct objects two sides hold, and in how many triples each of
/// the given terms is the subject and the object, in the order given.
pub fn counts_of(
    alloc: Global,
    book: &TermBook,
    sides: &TripleSides,
    terms: &[Term],
) -> Result<Counts, AllocError>
    requires { IsStore (store_of book.now sides.now) }
    ensures { IfOk result (λ counts. counts ≡ counts_over (stored_triples (store_of book.now sides.now)) terms.now) }
{
    let constants = counts_of_each(alloc, book, sides, terms)?;
    Ok(Counts {
        triples: sides.count(),
        subjects: sides.direct().entity_count(),
        objects: sides.reverse().entity_count(),
        constants,
    })
}
