//! Rows of a compiled query, read as its answer.

ghost use Rattle.std.specs.Prelude.{◌≡◌, Some, IfOk, IfSome, is_some, vec_items, map, length, true};
ghost use Rattle.rdf_meaning.specs.Terms.{is_term};
ghost use Rattle.sql_gen_answer_meaning.specs.Columns.{answer_columns};
ghost use Rattle.sql_gen_answer_meaning.specs.Decode.{place_from, decode_places, decode_row, decode};
ghost use Rattle.answer_text.specs.Classes.{kind_of_class, term_of_class};

use rdf_meaning::{Term, TermKind, Text};
use rel_cells::{Cell, Row, RowList};
use std::alloc::{AllocError, Global};
use std::marker::Model;

/// The rows of an answer, each with a term for each shown variable, or none where it is unbound.
#[derive(Debug, Drop)]
pub struct Answers {
    pub rows: Vec<Vec<Option<Term>>>,
}

impl Model for Answers {
    ghost use Rattle.std.specs.Prelude.{List, map, vec_items};
    ghost use Rattle.query_eval_meaning.specs.Answer.{Row};

    ghost Value = { List Row };

    ghost view = { λ a. map vec_items a.rows.items };
}

// What the terms of a class are.
fn kind_of_class(class: i128) -> TermKind
    ensures { result ≡ kind_of_class class }
{
    match class {
        1 => TermKind::Blank,
        2 => TermKind::Iri,
        6 => TermKind::Tagged,
        _ => TermKind::Typed,
    }
}

fn term_of(alloc: Global, class: i128, text: &Text, aux: &Text) -> Result<Term, AllocError>
    requires { is_term (kind_of_class class) text.now aux.now ≡ true }
    ensures { IfOk result (λ term. term ≡ term_of_class class text.now aux.now) }
{
    Ok(Term {
        kind: kind_of_class(class),
        text: text.copy(alloc)?,
        aux: aux.copy(alloc)?,
    })
}

// The place that three cells make.
fn place_from(
    alloc: Global,
    class: &Cell,
    text: &Cell,
    aux: &Cell,
) -> Result<Option<Term>, AllocError>
    requires { is_some (place_from class.now text.now aux.now) ≡ true }
    ensures { IfOk result (λ place. place_from class.now text.now aux.now ≡ Some place) }
{
    match (class, text, aux) {
        (Cell::Int(class), Cell::Text(text), Cell::Text(aux)) => {
            Ok(Some(term_of(alloc, *class, text, aux)?))
        }
        _ => Ok(None),
    }
}

// The places behind the one.
fn decode_places(alloc: Global, cells: &[Cell], vars: u32) -> Result<Vec<Option<Term>>, AllocError>
    requires { is_some (decode_places cells.now) ≡ true }
    ensures { IfOk result (λ places. decode_places cells.now ≡ Some places.items) }
{
    let mut places = Vec::with_capacity(alloc, vars as usize)?;
    let mut rest = cells;
    'places: while let [class, text, aux, others @ ..] = rest {
        places.push(place_from(alloc, class, text, aux)?)?;
        rest = others;
    }
    Ok(places)
}

fn decode_row(alloc: Global, row: &Row, vars: u32) -> Result<Vec<Option<Term>>, AllocError>
    requires { is_some (decode_row row.now) ≡ true }
    ensures { IfOk result (λ places. decode_row row.now ≡ Some places.items) }
{
    match row.cells.as_slice() {
        [_one, places @ ..] => decode_places(alloc, places, vars),
        [] => Ok(Vec::new(alloc)),
    }
}

fn decode_rows(alloc: Global, rows: &[Row], vars: u32) -> Result<Vec<Vec<Option<Term>>>, AllocError>
    requires { is_some (decode rows.now) ≡ true }
    ensures { IfOk result (λ answers. decode rows.now ≡ Some (map vec_items answers.items)) }
{
    let mut answers = Vec::with_capacity(alloc, rows.len())?;
    for row in rows {
        answers.push(decode_row(alloc, row, vars)?)?;
    }
    Ok(answers)
}

/// The answer that is read of the rows of a compiled query with so many shown variables: behind a one, the class, text,
/// and tag or datatype of a term for each, or three nulls.
pub fn decode(alloc: Global, rows: &RowList, vars: u32) -> Result<Answers, AllocError>
    requires columns { rows.now.schema ≡ answer_columns vars }
    requires rows { is_some (decode rows.now.rows) ≡ true }
    ensures { IfOk result (λ answers. decode rows.now.rows ≡ Some answers) }
{
    Ok(Answers {
        rows: decode_rows(alloc, rows.rows.as_slice(), vars)?,
    })
}
