//! Answers as text.
#![tactic(auto, using(rel_cells::specs::Fronts::kept_same, rel_cells::specs::Fronts::kept_append, rel_cells::specs::Fronts::kept_on, crate::proofs::Fields::left_at_first))]

ghost use Rattle.std.specs.Prelude.{◌≡◌, ◌++◌, ◌∷◌, OnOk, OnErr, map, vec_items};
ghost use Rattle.std.specs.List.{flat_map};
ghost use Rattle.rel_cells.specs.Fronts.{KeepsFront};
ghost use Rattle.query_eval_meaning.specs.AnswerText.{tabbed, place_text, row_text, header_text, answer_text};
ghost use Rattle.answer_text.specs.Names.{asked};

use crate::decoding::Answers;
use rdf_meaning::{Term, Text};
use rdf_spelling::write_term;
use std::alloc::AllocError;

// A variable's name behind `?`, with what stands before it.
fn write_name(before: &[u8], name: &Text, into: &mut Vec<u8>) -> Result<(), AllocError>
    ensures ok { OnOk result (into.new.items ≡ into.old.items ++ (before.now ++ asked name.now)) }
    ensures kept { KeepsFront into.old.items into.new.items }
{
    into.extend_from_slice(before)?;
    into.push(b'?')?;
    into.extend_from_slice(name.bytes())?;
    Ok(())
}

fn write_names(names: &[Text], into: &mut Vec<u8>) -> Result<(), AllocError>
    ensures ok { OnOk result (into.new.items ≡ into.old.items ++ tabbed (map asked names.now)) }
    ensures kept { KeepsFront into.old.items into.new.items }
{
    let mut before: &[u8] = b"";
    for name in names {
        write_name(before, name, into)?;
        before = b"\t";
    }
    Ok(())
}

fn write_header(names: &[Text], into: &mut Vec<u8>) -> Result<(), AllocError>
    ensures ok { OnOk result (into.new.items ≡ into.old.items ++ header_text names.now) }
    ensures kept { KeepsFront into.old.items into.new.items }
{
    write_names(names, into)?;
    into.push(b'\n')?;
    Ok(())
}

// Nothing where it is unbound.
fn write_term_of(place: &Option<Term>, into: &mut Vec<u8>) -> Result<(), AllocError>
    ensures ok { OnOk result (into.new.items ≡ into.old.items ++ place_text place.now) }
    ensures kept { KeepsFront into.old.items into.new.items }
{
    match place {
        Some(term) => write_term(term, into),
        None => Ok(()),
    }
}

// A place, with what stands before it.
fn write_place(before: &[u8], place: &Option<Term>, into: &mut Vec<u8>) -> Result<(), AllocError>
    ensures ok { OnOk result (into.new.items ≡ into.old.items ++ (before.now ++ place_text place.now)) }
    ensures kept { KeepsFront into.old.items into.new.items }
{
    into.extend_from_slice(before)?;
    write_term_of(place, into)?;
    Ok(())
}

fn write_places(places: &[Option<Term>], into: &mut Vec<u8>) -> Result<(), AllocError>
    ensures ok { OnOk result (into.new.items ≡ into.old.items ++ tabbed (map place_text places.now)) }
    ensures kept { KeepsFront into.old.items into.new.items }
{
    let mut before: &[u8] = b"";
    for place in places {
        write_place(before, place, into)?;
        before = b"\t";
    }
    Ok(())
}

// A row and the end of its line.
fn write_row(places: &[Option<Term>], into: &mut Vec<u8>) -> Result<(), AllocError>
    ensures ok { OnOk result (into.new.items ≡ into.old.items ++ row_text places.now) }
    ensures kept { KeepsFront into.old.items into.new.items }
{
    write_places(places, into)?;
    into.push(b'\n')?;
    Ok(())
}

fn write_rows(rows: &[Vec<Option<Term>>], into: &mut Vec<u8>) -> Result<(), AllocError>
    ensures ok { OnOk result (into.new.items ≡ into.old.items ++ flat_map row_text (map vec_items rows.now)) }
    ensures kept { KeepsFront into.old.items into.new.items }
{
    for row in rows {
        write_row(row.as_slice(), into)?;
    }
    Ok(())
}

fn write_all(names: &[Text], answers: &Answers, into: &mut Vec<u8>) -> Result<(), AllocError>
    ensures ok { OnOk result (into.new.items ≡ into.old.items ++ answer_text names.now answers.now) }
    ensures kept { KeepsFront into.old.items into.new.items }
{
    write_header(names, into)?;
    write_rows(answers.rows.as_slice(), into)?;
    Ok(())
}

/// Appends an answer: the names of the shown variables, each behind `?`, and then a line for each row, with tabs between
/// the terms, each as data spell it, and nothing for an unbound one. After an error `into` is as before.
pub fn write_answers(
    names: &[Text],
    answers: &Answers,
    into: &mut Vec<u8>,
) -> Result<(), AllocError>
    ensures ok { OnOk result (into.new.items ≡ into.old.items ++ answer_text names.now answers.now) }
    ensures err { OnErr result (into.new.items ≡ into.old.items) }
{
    let start = into.len();
    let written = write_all(names, answers, into);
    if written.is_err() {
        into.truncate(start);
    }
    written
}
