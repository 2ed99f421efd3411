//! One line.

ghost use Rattle.std.specs.Prelude.{◌≡◌, option_map, IfOk, MatchOption};
ghost use Rattle.std.specs.Str.{chars};
ghost use Rattle.line_meaning.specs.Reader.{after_blanks, triple_at, last_triple, after_gap, content, chars_reading, reading_of};
ghost use Rattle.nt_lines.specs.Fronts.{front_triple, marked_triple};
ghost use Rattle.line_meaning.specs.Lines.{Adds, Deletes};
ghost use Rattle.nt_lines.specs.Refusals.{reading};

use crate::characters::{after_blanks, after_char, is_blank, is_end};
use crate::term::{iri_term_at, object_at, subject_at};
use line_change_meaning::Change;
use rdf_meaning::Triple;
use std::alloc::{AllocError, Global};
use std::str;

/// What a line says.
#[derive(Debug, Drop)]
pub enum Said {
    Nothing,
    Change(Change),
    Bad,
}

// A triple with its full stop, and what follows.
#[tactic(auto, unfolding(line_meaning::specs::Reader::triple_at))]
fn triple_at(
    alloc: Global,
    file: u32,
    chars: &[char],
) -> Result<Option<(Triple, &[char])>, AllocError>
    ensures { IfOk result (λ x. front_triple x ≡ triple_at file chars.now) }
{
    let Some((s, rest)) = subject_at(alloc, file, chars)? else {
        return Ok(None);
    };
    let Some((p, rest)) = iri_term_at(alloc, after_blanks(rest))? else {
        return Ok(None);
    };
    let Some((o, rest)) = object_at(alloc, file, after_blanks(rest))? else {
        return Ok(None);
    };
    let Some(rest) = after_char('.', after_blanks(rest)) else {
        return Ok(None);
    };
    Ok(Some((Triple { s, p, o }, rest)))
}

// A triple that goes to the end of the line.
#[tactic(auto, unfolding(line_meaning::specs::Reader::last_triple))]
fn last_triple(alloc: Global, file: u32, chars: &[char]) -> Result<Option<Triple>, AllocError>
    ensures { IfOk result (λ triple. triple ≡ last_triple file chars.now) }
{
    let Some((triple, rest)) = triple_at(alloc, file, chars)? else {
        return Ok(None);
    };
    if !is_end(after_blanks(rest)) {
        return Ok(None);
    }
    Ok(Some(triple))
}

// What follows at least one blank.
#[tactic(auto, unfolding(line_meaning::specs::Reader::after_gap))]
fn after_gap(chars: &[char]) -> Option<&[char]>
    ensures { option_map (λ rest. rest.now) result ≡ after_gap chars.now }
{
    let (first, rest) = chars.split_first()?;
    if is_blank(*first) {
        Some(after_blanks(rest))
    } else {
        None
    }
}

// The triple behind a mark.
fn marked(alloc: Global, file: u32, chars: &[char]) -> Result<Option<Triple>, AllocError>
    ensures { IfOk result (λ triple. triple ≡ marked_triple file chars.now) }
{
    match after_gap(chars) {
        Some(rest) => last_triple(alloc, file, rest),
        None => Ok(None),
    }
}

fn add(triple: Option<Triple>) -> Said
    ensures { reading result ≡ option_map Adds triple }
{
    match triple {
        Some(triple) => Said::Change(Change::Add(triple)),
        None => Said::Bad,
    }
}

fn delete(triple: Option<Triple>) -> Said
    ensures { reading result ≡ option_map Deletes triple }
{
    match triple {
        Some(triple) => Said::Change(Change::Delete(triple)),
        None => Said::Bad,
    }
}

// What stands behind the first blanks of a line.
#[tactic(auto, unfolding(line_meaning::specs::Reader::content))]
fn content(alloc: Global, file: u32, chars: &[char]) -> Result<Said, AllocError>
    ensures { IfOk result (λ said. reading said ≡ content file chars.now) }
{
    let Some((first, rest)) = chars.split_first() else {
        return Ok(Said::Nothing);
    };
    match *first {
        '#' => Ok(Said::Nothing),
        'A' => Ok(add(marked(alloc, file, rest)?)),
        'D' => Ok(delete(marked(alloc, file, rest)?)),
        _ => Ok(add(last_triple(alloc, file, chars)?)),
    }
}

/// The characters of a text.
#[tactic(auto, using(std::proofs::lemmas::Str::chars_from_encodes))]
pub fn chars_of(alloc: Global, text: &str) -> Result<Vec<char>, AllocError>
    ensures { IfOk result (λ characters. characters.items ≡ chars text.now) }
{
    text.chars().collect(alloc)
}

fn read_text(alloc: Global, file: u32, text: &str) -> Result<Said, AllocError>
    ensures { IfOk result (λ said. reading said ≡ chars_reading file (chars text.now)) }
{
    let characters = chars_of(alloc, text)?;
    content(alloc, file, after_blanks(&characters))
}

/// What a line of this data file says.
pub(crate) fn read_line(alloc: Global, file: u32, line: &[u8]) -> Result<Said, AllocError>
    ensures { IfOk result (λ said. reading said ≡ reading_of file line.now) }
{
    match str::from_utf8(line) {
        Ok(text) => read_text(alloc, file, text),
        Err(_) => Ok(Said::Bad),
    }
}
