//! Colours under the IRIs of their predicates.

ghost use Rattle.std.specs.Prelude.{◌≡◌, ◌≤◌, ℕ, length, map, IfOk, OnOk};
ghost use Rattle.std.specs.List.{AllByRecursion};
ghost use Rattle.layout_standing_meaning.specs.Stored.{IsIdIn, text_of_id};
ghost use Rattle.pred_colour.specs.Given.{pair_of};
ghost use Rattle.pred_columns.specs.Refusal.{known_of};

use pred_colour::Coloured;
use pred_columns::ColourPair;
use rdf_meaning::TermId;
use std::alloc::{AllocError, Global};
use term_book::TermBook;

fn pair(alloc: Global, colour: Coloured, iris: &TermBook) -> Result<ColourPair, AllocError>
    requires low { 1 ≤ colour.pred }
    requires high { colour.pred ≤ length iris.now }
    ensures { IfOk result (λ pair. known_of pair ≡ (text_of_id iris.now colour.pred, colour.column)) }
{
    let iri = &iris.term(TermId::new(colour.pred)).text;
    Ok(ColourPair {
        iri: iri.copy(alloc)?,
        column: colour.column,
    })
}

/// The pairs of colours; the predicates are ids of the book.
pub(crate) fn pairs_of(
    alloc: Global,
    colours: &[Coloured],
    iris: &TermBook,
) -> Result<Vec<ColourPair>, AllocError>
    requires { AllByRecursion (λ (c : ℕ × ℕ). IsIdIn iris.now c.0) (map pair_of colours.now) }
    ensures { IfOk result (λ pairs. map known_of pairs.items ≡ map (λ (c : ℕ × ℕ). (text_of_id iris.now c.0, c.1)) (map pair_of colours.now)) }
{
    let mut pairs = Vec::new(alloc);
    for at in 0..colours.len() {
        let both = pair(alloc, colours[at], iris)?;
        pairs.push(both)?;
    }
    Ok(pairs)
}
