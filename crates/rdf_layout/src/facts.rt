//! What is told of the tables of a dictionary and two sides.

ghost use Rattle.std.specs.Prelude.{◌≡◌, IfOk};
ghost use Rattle.std.specs.List.{IsDistinct};
ghost use Rattle.rdf_meaning.specs.Terms.{same_term};
ghost use Rattle.layout_standing_meaning.specs.Changes.{store_of};
ghost use Rattle.layout_facts_meaning.specs.Facts.{store_facts};

use layout_facts::spilled_among;
use layout_sides::TripleSides;
use pred_columns::{LayoutFacts, Spilled};
use rdf_meaning::Term;
use std::alloc::{AllocError, Global};
use term_book::TermBook;

/// The columns of both sides, and which of given predicates are spilled on each.
pub(crate) fn facts_of(
    alloc: Global,
    book: &TermBook,
    sides: &TripleSides,
    preds: &[Term],
) -> Result<LayoutFacts, AllocError>
    requires { IsDistinct same_term book.now }
    ensures { IfOk result (λ facts. facts ≡ store_facts (store_of book.now sides.now) preds.now) }
{
    let direct = spilled_among(alloc, book, sides.direct(), preds)?;
    let reverse = spilled_among(alloc, book, sides.reverse(), preds)?;
    Ok(LayoutFacts {
        direct: sides.direct().columns().copy(alloc)?,
        reverse: sides.reverse().columns().copy(alloc)?,
        spilled: Spilled { direct, reverse },
    })
}
