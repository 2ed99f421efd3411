//! Parts of a script that have no parts.
#![tactic(auto, using(rel_cells::specs::Fronts::kept_same, rel_cells::specs::Fronts::kept_append, rel_cells::specs::Fronts::kept_on))]

ghost use Rattle.std.specs.Prelude.{◌≡◌, ◌++◌, ◌∷◌, [], OnOk, codes};
ghost use Rattle.rel_cells.specs.Fronts.{KeepsFront};
ghost use Rattle.sql_meaning.specs.Canon.{doubled, kind_mark};
ghost use Rattle.sql_meaning.specs.Marks.{mark_bytes};
ghost use Rattle.sql_text_spelling_laws.specs.Pieces.{quoted_text, truth_piece, source_piece, count_piece};

use rdf_meaning::Text;
use rel_cells::{CellView, Kind, write_cell};
use sql_meaning::Source;
use std::alloc::AllocError;

// A byte between quotes; a quote stands twice.
fn write_byte(byte: u8, into: &mut Vec<u8>) -> Result<(), AllocError>
    ensures ok { OnOk result (into.new.items ≡ into.old.items ++ doubled (byte ∷ [])) }
    ensures kept { KeepsFront into.old.items into.new.items }
{
    if byte == b'\'' {
        into.push(b'\'')?;
    }
    into.push(byte)?;
    Ok(())
}

// What stands between the quotes of a text.
fn write_doubled(text: &[u8], into: &mut Vec<u8>) -> Result<(), AllocError>
    ensures ok { OnOk result (into.new.items ≡ into.old.items ++ doubled text.now) }
    ensures kept { KeepsFront into.old.items into.new.items }
{
    for byte in text {
        write_byte(*byte, into)?;
    }
    Ok(())
}

/// A text in quotes.
pub fn write_text(text: &Text, into: &mut Vec<u8>) -> Result<(), AllocError>
    ensures ok { OnOk result (into.new.items ≡ into.old.items ++ quoted_text text.now) }
    ensures kept { KeepsFront into.old.items into.new.items }
{
    into.push(b'\'')?;
    write_doubled(text.bytes(), into)?;
    into.push(b'\'')?;
    Ok(())
}

/// A column of a source.
pub fn write_name(alias: &Text, column: &Text, into: &mut Vec<u8>) -> Result<(), AllocError>
    ensures ok { OnOk result (into.new.items ≡ into.old.items ++ (alias.now ++ (codes "." ++ column.now))) }
    ensures kept { KeepsFront into.old.items into.new.items }
{
    into.extend_from_slice(alias.bytes())?;
    into.push(b'.')?;
    into.extend_from_slice(column.bytes())?;
    Ok(())
}

/// `TRUE` or `FALSE`.
pub fn write_truth(truth: bool, into: &mut Vec<u8>) -> Result<(), AllocError>
    ensures ok { OnOk result (into.new.items ≡ into.old.items ++ truth_piece truth) }
    ensures kept { KeepsFront into.old.items into.new.items }
{
    if truth {
        into.extend_from_slice(b"TRUE")
    } else {
        into.extend_from_slice(b"FALSE")
    }
}

fn kind_word(kind: Kind) -> &'static [u8]
    ensures { result.now ≡ mark_bytes (kind_mark kind) }
{
    match kind {
        Kind::Int => b"INT",
        Kind::Text => b"TEXT",
        Kind::Truth => b"TRUTH",
    }
}

/// A null of a kind.
pub fn write_null(kind: Kind, into: &mut Vec<u8>) -> Result<(), AllocError>
    ensures ok { OnOk result (into.new.items ≡ into.old.items ++ (codes "CAST(NULL AS " ++ (mark_bytes (kind_mark kind) ++ codes ")"))) }
    ensures kept { KeepsFront into.old.items into.new.items }
{
    into.extend_from_slice(b"CAST(NULL AS ")?;
    into.extend_from_slice(kind_word(kind))?;
    into.push(b')')?;
    Ok(())
}

/// A source and its alias.
pub fn write_source(source: &Source, into: &mut Vec<u8>) -> Result<(), AllocError>
    ensures ok { OnOk result (into.new.items ≡ into.old.items ++ source_piece source.now) }
    ensures kept { KeepsFront into.old.items into.new.items }
{
    into.extend_from_slice(source.table.bytes())?;
    into.extend_from_slice(b" AS ")?;
    into.extend_from_slice(source.alias.bytes())?;
    Ok(())
}

/// A count behind its word, where there is one.
pub fn write_count(word: &[u8], count: Option<u64>, into: &mut Vec<u8>) -> Result<(), AllocError>
    ensures ok { OnOk result (into.new.items ≡ into.old.items ++ count_piece word.now count) }
    ensures kept { KeepsFront into.old.items into.new.items }
{
    if let Some(count) = count {
        into.extend_from_slice(word)?;
        write_cell(CellView::Int(i128::from(count)), into)?;
    }
    Ok(())
}
