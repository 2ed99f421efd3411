//! Terms at the front of a line.

ghost use Rattle.std.specs.Prelude.{◌≡◌, IfOk, IsTrue, encode_utf8_all};
ghost use Rattle.rdf_meaning.specs.Terms.{is_label_of, is_tag, iri, typed};
ghost use Rattle.line_meaning.specs.Labels.{blank_in};
ghost use Rattle.line_meaning.specs.Reader.{iri_at, iri_term_at, label_at, blank_at, subject_at, tagged_at, typed_at, literal_of, literal_at, object_at};
ghost use Rattle.nt_lines.specs.Fronts.{front_term, front_text, HasSubject, HasPredicate};

use crate::characters::{after_char, starts};
use crate::enclosed::text_at;
use crate::label::{count_tag_parts, is_tag, label_at, label_in, lower_text};
use line_meaning::Enclosure;
use rdf_meaning::{KnownDatatype, Term, TermKind, Text, text_of};
use std::alloc::{AllocError, Global};

/// An IRI in brackets, and what follows.
#[tactic(auto, unfolding(line_meaning::specs::Reader::iri_at))]
pub fn iri_at(alloc: Global, chars: &[char]) -> Result<Option<(String, &[char])>, AllocError>
    ensures { IfOk result (λ x. front_text x ≡ iri_at chars.now) }
{
    match after_char('<', chars) {
        Some(inner) => text_at(alloc, Enclosure::Iri, inner),
        None => Ok(None),
    }
}

// An IRI's term at the front.
pub(crate) fn iri_term_at(
    alloc: Global,
    chars: &[char],
) -> Result<Option<(Term, &[char])>, AllocError>
    ensures value { IfOk result (λ x. front_term x ≡ iri_term_at chars.now) }
    ensures subject { IfOk result HasSubject }
    ensures predicate { IfOk result HasPredicate }
{
    let Some((iri, rest)) = iri_at(alloc, chars)? else {
        return Ok(None);
    };
    let term = Term {
        kind: TermKind::Iri,
        text: text_of(alloc, iri.as_str())?,
        aux: text_of(alloc, "")?,
    };
    Ok(Some((term, rest)))
}

// The blank node that a label of this data file stands for.
#[tactic(auto, using(crate::proofs::Texts::blank_is_term))]
fn blank_of(alloc: Global, file: u32, label: &[char]) -> Result<Term, AllocError>
    requires { IsTrue (is_label_of label.now) }
    ensures { IfOk result (λ term. term ≡ blank_in file (encode_utf8_all label.now)) }
{
    let label = label_in(alloc, file, label)?;
    Ok(Term {
        kind: TermKind::Blank,
        text: text_of(alloc, label.as_str())?,
        aux: text_of(alloc, "")?,
    })
}

#[tactic(auto, unfolding(line_meaning::specs::Reader::blank_at, line_meaning::specs::Reader::label_at))]
fn blank_at(alloc: Global, file: u32, chars: &[char]) -> Result<Option<(Term, &[char])>, AllocError>
    ensures value { IfOk result (λ x. front_term x ≡ blank_at file chars.now) }
    ensures subject { IfOk result HasSubject }
{
    let Some(rest) = after_char('_', chars) else {
        return Ok(None);
    };
    let Some(rest) = after_char(':', rest) else {
        return Ok(None);
    };
    let Some((label, rest)) = label_at(rest) else {
        return Ok(None);
    };
    Ok(Some((blank_of(alloc, file, label)?, rest)))
}

/// A subject at the front.
#[tactic(auto, unfolding(line_meaning::specs::Reader::subject_at))]
pub(crate) fn subject_at(
    alloc: Global,
    file: u32,
    chars: &[char],
) -> Result<Option<(Term, &[char])>, AllocError>
    ensures value { IfOk result (λ x. front_term x ≡ subject_at file chars.now) }
    ensures subject { IfOk result HasSubject }
{
    if starts('<', chars) {
        iri_term_at(alloc, chars)
    } else {
        blank_at(alloc, file, chars)
    }
}

// The IRI of a datatype; a known one takes no memory.
fn datatype_of(alloc: Global, iri: &str) -> Result<Text, AllocError>
    ensures { IfOk result (λ text. text ≡ iri.now) }
{
    for known in [
        KnownDatatype::String,
        KnownDatatype::Integer,
        KnownDatatype::Decimal,
        KnownDatatype::Boolean,
        KnownDatatype::DateTime,
        KnownDatatype::Long,
        KnownDatatype::Int,
        KnownDatatype::Short,
        KnownDatatype::Byte,
        KnownDatatype::UnsignedLong,
        KnownDatatype::UnsignedInt,
        KnownDatatype::UnsignedShort,
        KnownDatatype::UnsignedByte,
        KnownDatatype::NonNegativeInteger,
        KnownDatatype::PositiveInteger,
        KnownDatatype::NonPositiveInteger,
        KnownDatatype::NegativeInteger,
    ] {
        if known.iri() == iri {
            return Ok(Text::known(known));
        }
    }
    text_of(alloc, iri)
}

// A literal with a datatype.
fn typed_of(alloc: Global, text: &str, datatype: Text) -> Result<Term, AllocError>
    ensures { IfOk result (λ term. term ≡ typed text.now datatype) }
{
    Ok(Term {
        kind: TermKind::Typed,
        text: text_of(alloc, text)?,
        aux: datatype,
    })
}

// A literal of this text with a tag.
#[tactic(auto, unfolding(line_meaning::specs::Reader::tagged_at))]
fn tagged_at<'a>(
    alloc: Global,
    text: &str,
    chars: &'a [char],
) -> Result<Option<(Term, &'a [char])>, AllocError>
    ensures { IfOk result (λ x. front_term x ≡ tagged_at text.now chars.now) }
{
    let count = count_tag_parts(chars);
    let tag = lower_text(alloc, &chars[..count])?;
    if !is_tag(tag.as_bytes()) {
        return Ok(None);
    }
    let term = Term {
        kind: TermKind::Tagged,
        text: text_of(alloc, text)?,
        aux: text_of(alloc, tag.as_str())?,
    };
    Ok(Some((term, &chars[count..])))
}

// A literal of this text with a datatype.
#[tactic(auto, unfolding(line_meaning::specs::Reader::typed_at))]
fn typed_at<'a>(
    alloc: Global,
    text: &str,
    chars: &'a [char],
) -> Result<Option<(Term, &'a [char])>, AllocError>
    ensures { IfOk result (λ x. front_term x ≡ typed_at text.now chars.now) }
{
    let Some(rest) = after_char('^', chars) else {
        return Ok(None);
    };
    let Some((iri, rest)) = iri_at(alloc, rest)? else {
        return Ok(None);
    };
    let datatype = datatype_of(alloc, iri.as_str())?;
    Ok(Some((typed_of(alloc, text, datatype)?, rest)))
}

// The literal of this text, by what follows it.
#[tactic(auto, unfolding(line_meaning::specs::Reader::literal_of))]
fn literal_of<'a>(
    alloc: Global,
    text: &str,
    chars: &'a [char],
) -> Result<Option<(Term, &'a [char])>, AllocError>
    ensures { IfOk result (λ x. front_term x ≡ literal_of text.now chars.now) }
{
    if let Some((first, rest)) = chars.split_first() {
        if *first == '@' {
            return tagged_at(alloc, text, rest);
        }
        if *first == '^' {
            return typed_at(alloc, text, rest);
        }
    }
    let plain = typed_of(alloc, text, Text::known(KnownDatatype::String))?;
    Ok(Some((plain, chars)))
}

#[tactic(auto, unfolding(line_meaning::specs::Reader::literal_at))]
fn literal_at(alloc: Global, chars: &[char]) -> Result<Option<(Term, &[char])>, AllocError>
    ensures { IfOk result (λ x. front_term x ≡ literal_at chars.now) }
{
    let Some(inner) = after_char('"', chars) else {
        return Ok(None);
    };
    let Some((text, rest)) = text_at(alloc, Enclosure::Text, inner)? else {
        return Ok(None);
    };
    literal_of(alloc, text.as_str(), rest)
}

/// An object at the front.
#[tactic(auto, unfolding(line_meaning::specs::Reader::object_at))]
pub(crate) fn object_at(
    alloc: Global,
    file: u32,
    chars: &[char],
) -> Result<Option<(Term, &[char])>, AllocError>
    ensures { IfOk result (λ x. front_term x ≡ object_at file chars.now) }
{
    if starts('"', chars) {
        literal_at(alloc, chars)
    } else {
        subject_at(alloc, file, chars)
    }
}
