//! One line.

ghost use Rattle.std.specs.Prelude.{◌≡◌, IfOk, option_map};
ghost use Rattle.std.specs.Str.{chars};
ghost use Rattle.colouring_file_meaning.specs.ColourLines.{columns_on};
ghost use Rattle.colouring_file_meaning.specs.ColourReader.{side_at, column_of_number, column_in, colour_at, colour_content, colour_reading_of};
ghost use Rattle.colouring_file.specs.Colours.{colour_of};
ghost use Rattle.colouring_file.specs.Readings.{front_side, reading};

use crate::colours::ColourLine;
use nt_lines::{after_blanks, after_char, chars_of, iri_at, is_end, text_of_chars};
use rdf_meaning::{SideName, text_of};
use rel_cells::read_int;
use std::alloc::{AllocError, Global};
use std::str;

/// What a line says.
#[derive(Debug, Drop)]
pub enum Said {
    Nothing,
    Colour(ColourLine),
    Bad,
}

// The side that a letter names, and what follows.
fn side_at(chars: &[char]) -> Option<(SideName, &[char])>
    ensures { front_side result ≡ side_at chars.now }
{
    let (first, rest) = chars.split_first()?;
    match *first {
        'D' => Some((SideName::Direct, rest)),
        'R' => Some((SideName::Reverse, rest)),
        _ => None,
    }
}

fn columns_on(side: SideName, direct: u32, reverse: u32) -> u32
    ensures { result ≡ columns_on direct reverse side }
{
    match side {
        SideName::Direct => direct,
        SideName::Reverse => reverse,
    }
}

// A column below the count, by its number from 1 on.
fn column_of_number(number: i128, count: u32) -> Option<u32>
    ensures { result ≡ column_of_number count number }
{
    if number >= 1 && number <= i128::from(count) {
        Some((number - 1) as u32)
    } else {
        None
    }
}

fn column_in(text: &[u8], count: u32) -> Option<u32>
    ensures { result ≡ column_in count text.now }
{
    match read_int(text) {
        Some(number) => column_of_number(number, count),
        None => None,
    }
}

// A line that is a colour.
#[tactic(auto, unfolding(colouring_file_meaning::specs::ColourReader::colour_at))]
fn colour_at(
    alloc: Global,
    chars: &[char],
    direct: u32,
    reverse: u32,
) -> Result<Option<ColourLine>, AllocError>
    ensures { IfOk result (λ line. option_map colour_of line ≡ colour_at direct reverse chars.now) }
{
    let Some((side, rest)) = side_at(chars) else {
        return Ok(None);
    };
    let Some(rest) = after_char(' ', rest) else {
        return Ok(None);
    };
    let Some((iri, rest)) = iri_at(alloc, rest)? else {
        return Ok(None);
    };
    let Some(rest) = after_char(' ', rest) else {
        return Ok(None);
    };
    let digits = text_of_chars(alloc, rest)?;
    let Some(column) = column_in(digits.as_bytes(), columns_on(side, direct, reverse)) else {
        return Ok(None);
    };
    let iri = text_of(alloc, iri.as_str())?;
    Ok(Some(ColourLine { side, iri, column }))
}

fn read_chars(alloc: Global, chars: &[char], direct: u32, reverse: u32) -> Result<Said, AllocError>
    ensures { IfOk result (λ said. reading said ≡ colour_content direct reverse chars.now) }
{
    if is_end(after_blanks(chars)) {
        return Ok(Said::Nothing);
    }
    match colour_at(alloc, chars, direct, reverse)? {
        Some(line) => Ok(Said::Colour(line)),
        None => Ok(Said::Bad),
    }
}

fn read_text(alloc: Global, text: &str, direct: u32, reverse: u32) -> Result<Said, AllocError>
    ensures { IfOk result (λ said. reading said ≡ colour_content direct reverse (chars text.now)) }
{
    let characters = chars_of(alloc, text)?;
    read_chars(alloc, &characters, direct, reverse)
}

/// What a line says.
#[tactic(auto, unfolding(colouring_file_meaning::specs::ColourReader::colour_reading_of))]
pub(crate) fn read_line(
    alloc: Global,
    line: &[u8],
    direct: u32,
    reverse: u32,
) -> Result<Said, AllocError>
    ensures { IfOk result (λ said. reading said ≡ colour_reading_of direct reverse line.now) }
{
    match str::from_utf8(line) {
        Ok(text) => read_text(alloc, text, direct, reverse),
        Err(_) => Ok(Said::Bad),
    }
}
