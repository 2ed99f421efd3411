//! How terms are written.
#![tactic(auto, using(crate::specs::Fronts::kept_same, crate::specs::Fronts::kept_append, crate::specs::Fronts::kept_on))]

ghost use Rattle.std.specs.Prelude.{◌≡◌, ◌++◌, ◌<◌, OnOk, OnErr};
ghost use Rattle.std.specs.List.{flat_map};
ghost use Rattle.rdf_spelling.specs.Fronts.{KeepsFront};
ghost use Rattle.rdf_meaning.specs.Spelling.{is_escaped, hex_digit, spelled_iri_byte, spelled_text_byte, iri_spelling, text_spelling, datatype_spelling, spelling};

use rdf_meaning::{KnownDatatype, Term, TermKind};
use std::alloc::AllocError;

// Whether a byte never stands in an IRI by itself.
fn is_escaped(byte: u8) -> bool
    ensures { result ≡ is_escaped byte }
{
    byte <= b' '
        || matches!(
            byte,
            b'<' | b'>' | b'"' | b'{' | b'}' | b'|' | b'^' | b'`' | b'\\'
        )
}

fn hex_digit(digit: u8) -> u8
    requires { digit < 16 }
    ensures { result ≡ hex_digit digit }
{
    if digit < 10 {
        b'0' + digit
    } else {
        b'A' + (digit - 10)
    }
}

fn write_iri_byte(byte: u8, into: &mut Vec<u8>) -> Result<(), AllocError>
    ensures ok { OnOk result (into.new.items ≡ into.old.items ++ spelled_iri_byte byte) }
    ensures kept { KeepsFront into.old.items into.new.items }
{
    if is_escaped(byte) {
        into.extend_from_slice(b"\\u00")?;
        into.push(hex_digit(byte / 16))?;
        into.push(hex_digit(byte % 16))?;
    } else {
        into.push(byte)?;
    }
    Ok(())
}

fn write_iri_bytes(text: &[u8], into: &mut Vec<u8>) -> Result<(), AllocError>
    ensures ok { OnOk result (into.new.items ≡ into.old.items ++ flat_map spelled_iri_byte text.now) }
    ensures kept { KeepsFront into.old.items into.new.items }
{
    for byte in text {
        write_iri_byte(*byte, into)?;
    }
    Ok(())
}

fn write_iri(text: &[u8], into: &mut Vec<u8>) -> Result<(), AllocError>
    ensures ok { OnOk result (into.new.items ≡ into.old.items ++ iri_spelling text.now) }
    ensures kept { KeepsFront into.old.items into.new.items }
{
    into.push(b'<')?;
    write_iri_bytes(text, into)?;
    into.push(b'>')?;
    Ok(())
}

fn write_text_byte(byte: u8, into: &mut Vec<u8>) -> Result<(), AllocError>
    ensures ok { OnOk result (into.new.items ≡ into.old.items ++ spelled_text_byte byte) }
    ensures kept { KeepsFront into.old.items into.new.items }
{
    match byte {
        b'\t' => into.extend_from_slice(b"\\t")?,
        b'\n' => into.extend_from_slice(b"\\n")?,
        b'\r' => into.extend_from_slice(b"\\r")?,
        b'"' => into.extend_from_slice(b"\\\"")?,
        b'\\' => into.extend_from_slice(b"\\\\")?,
        _ => into.push(byte)?,
    }
    Ok(())
}

fn write_text_bytes(text: &[u8], into: &mut Vec<u8>) -> Result<(), AllocError>
    ensures ok { OnOk result (into.new.items ≡ into.old.items ++ flat_map spelled_text_byte text.now) }
    ensures kept { KeepsFront into.old.items into.new.items }
{
    for byte in text {
        write_text_byte(*byte, into)?;
    }
    Ok(())
}

/// Appends a text between quotes, with escapes as N-Triples (RDF 1.1, section 2.4) has them, or a
/// front of it where there is no memory.
pub fn write_text(text: &[u8], into: &mut Vec<u8>) -> Result<(), AllocError>
    ensures ok { OnOk result (into.new.items ≡ into.old.items ++ text_spelling text.now) }
    ensures kept { KeepsFront into.old.items into.new.items }
{
    into.push(b'"')?;
    write_text_bytes(text, into)?;
    into.push(b'"')?;
    Ok(())
}

// Nothing for `xsd:string`.
fn write_datatype(datatype: &[u8], into: &mut Vec<u8>) -> Result<(), AllocError>
    ensures ok { OnOk result (into.new.items ≡ into.old.items ++ datatype_spelling datatype.now) }
    ensures kept { KeepsFront into.old.items into.new.items }
{
    if datatype == KnownDatatype::String.iri().as_bytes() {
        return Ok(());
    }
    into.extend_from_slice(b"^^")?;
    write_iri(datatype, into)
}

// Appends the spelling, or a part of it.
fn write(t: &Term, into: &mut Vec<u8>) -> Result<(), AllocError>
    ensures ok { OnOk result (into.new.items ≡ into.old.items ++ spelling t.now) }
    ensures kept { KeepsFront into.old.items into.new.items }
{
    match t.kind {
        TermKind::Iri => write_iri(t.text.bytes(), into),
        TermKind::Blank => {
            into.extend_from_slice(b"_:")?;
            into.extend_from_slice(t.text.bytes())?;
            Ok(())
        }
        TermKind::Tagged => {
            write_text(t.text.bytes(), into)?;
            into.push(b'@')?;
            into.extend_from_slice(t.aux.bytes())?;
            Ok(())
        }
        TermKind::Typed => {
            write_text(t.text.bytes(), into)?;
            write_datatype(t.aux.bytes(), into)
        }
    }
}

/// Appends a term as data and answers write it; after an error `into` is as before.
pub fn write_term(t: &Term, into: &mut Vec<u8>) -> Result<(), AllocError>
    ensures ok { OnOk result (into.new.items ≡ into.old.items ++ spelling t.now) }
    ensures err { OnErr result (into.new.items ≡ into.old.items) }
{
    let start = into.len();
    let written = write(t, into);
    if written.is_err() {
        into.truncate(start);
    }
    written
}
