//! Classes and values of terms.

ghost use Rattle.std.specs.Prelude.{◌≡◌, ◌↔◌, IsSome, IsTrue, option_map};
ghost use Rattle.std.specs.List.{find};
ghost use Rattle.std.specs.Str.{bytes_eq};
ghost use Rattle.rdf_meaning.specs.Known.{known_bytes};
ghost use Rattle.rdf_value_meaning.specs.Datatypes.{form_of};
ghost use Rattle.rdf_value_meaning.specs.Values.{class_of, value_of, has_value, rank_of, rank_of_form, rank_of_typed, rank_of_truth, rank_of_instant, truth_of_text};
ghost use Rattle.rdf_value_meaning.specs.Moments.{instant_of_text};

use crate::moment::instant_of;
use crate::number::{rank_of_decimal, rank_of_whole};
use rdf_meaning::{KnownDatatype, Term, TermKind};
use rdf_value_meaning::{Form, Range};

/// A class, and the value where there is one.
pub(crate) type Rank = (u8, Option<i128>);

pub(crate) const NUMBER: u8 = 3;

/// No value is known.
pub(crate) const UNKNOWN: Rank = (7, None);

/// Out of the form or the range of its datatype.
pub(crate) const ILL_FORMED: Rank = (8, None);

// The datatypes that have values.
const DATATYPES: [(KnownDatatype, Form); 17] = [
    (KnownDatatype::String, Form::AnyText),
    (
        KnownDatatype::Integer,
        Form::WholeNumber(Range {
            least: None,
            greatest: None,
        }),
    ),
    (KnownDatatype::Decimal, Form::DecimalNumber),
    (KnownDatatype::Boolean, Form::Truth),
    (KnownDatatype::DateTime, Form::Moment),
    (
        KnownDatatype::Long,
        Form::WholeNumber(Range {
            least: Some(-(1 << 63)),
            greatest: Some((1 << 63) - 1),
        }),
    ),
    (
        KnownDatatype::Int,
        Form::WholeNumber(Range {
            least: Some(-(1 << 31)),
            greatest: Some((1 << 31) - 1),
        }),
    ),
    (
        KnownDatatype::Short,
        Form::WholeNumber(Range {
            least: Some(-(1 << 15)),
            greatest: Some((1 << 15) - 1),
        }),
    ),
    (
        KnownDatatype::Byte,
        Form::WholeNumber(Range {
            least: Some(-(1 << 7)),
            greatest: Some((1 << 7) - 1),
        }),
    ),
    (
        KnownDatatype::UnsignedLong,
        Form::WholeNumber(Range {
            least: Some(0),
            greatest: Some((1 << 64) - 1),
        }),
    ),
    (
        KnownDatatype::UnsignedInt,
        Form::WholeNumber(Range {
            least: Some(0),
            greatest: Some((1 << 32) - 1),
        }),
    ),
    (
        KnownDatatype::UnsignedShort,
        Form::WholeNumber(Range {
            least: Some(0),
            greatest: Some((1 << 16) - 1),
        }),
    ),
    (
        KnownDatatype::UnsignedByte,
        Form::WholeNumber(Range {
            least: Some(0),
            greatest: Some((1 << 8) - 1),
        }),
    ),
    (
        KnownDatatype::NonNegativeInteger,
        Form::WholeNumber(Range {
            least: Some(0),
            greatest: None,
        }),
    ),
    (
        KnownDatatype::PositiveInteger,
        Form::WholeNumber(Range {
            least: Some(1),
            greatest: None,
        }),
    ),
    (
        KnownDatatype::NonPositiveInteger,
        Form::WholeNumber(Range {
            least: None,
            greatest: Some(0),
        }),
    ),
    (
        KnownDatatype::NegativeInteger,
        Form::WholeNumber(Range {
            least: None,
            greatest: Some(-1),
        }),
    ),
];

fn is_type(datatype: &[u8], known: KnownDatatype) -> bool
    ensures { result ≡ bytes_eq datatype.now (known_bytes known) }
{
    datatype == known.iri().as_bytes()
}

// The form of the first datatype with this IRI.
fn form_in(datatypes: &[(KnownDatatype, Form)], iri: &[u8]) -> Option<Form>
    ensures { result ≡ option_map (λ e. e.1) (find (λ e. bytes_eq iri.now (known_bytes e.0)) datatypes.now) }
{
    for (known, form) in datatypes {
        if is_type(iri, *known) {
            return Some(*form);
        }
    }
    None
}

fn form_of(iri: &[u8]) -> Option<Form>
    ensures { result ≡ form_of iri.now }
{
    form_in(&DATATYPES, iri)
}

// Class 4 with its value, or class 8.
fn rank_of_boolean(text: &[u8]) -> Rank
    ensures { result ≡ rank_of_truth (truth_of_text text.now) }
{
    if text == b"true".as_slice() || text == b"1".as_slice() {
        (4, Some(1))
    } else if text == b"false".as_slice() || text == b"0".as_slice() {
        (4, Some(0))
    } else {
        ILL_FORMED
    }
}

// Class 9 with its value, or class 7.
fn rank_of_moment(text: &[u8]) -> Rank
    ensures { result ≡ rank_of_instant (instant_of_text text.now) }
{
    match instant_of(text) {
        Some(nanoseconds) => (9, Some(nanoseconds)),
        None => UNKNOWN,
    }
}

fn rank_of_form(form: Form, text: &[u8]) -> Rank
    ensures { result ≡ rank_of_form form text.now }
{
    match form {
        Form::AnyText => (5, None),
        Form::Truth => rank_of_boolean(text),
        Form::DecimalNumber => rank_of_decimal(text),
        Form::WholeNumber(range) => rank_of_whole(range, text),
        Form::Moment => rank_of_moment(text),
    }
}

fn rank_of_typed(text: &[u8], datatype: &[u8]) -> Rank
    ensures { result ≡ rank_of_typed (form_of datatype.now) text.now }
{
    match form_of(datatype) {
        Some(form) => rank_of_form(form, text),
        None => UNKNOWN,
    }
}

/// The class and the value.
pub(crate) fn rank_of(t: &Term) -> Rank
    ensures { result ≡ rank_of t.now }
{
    match t.kind {
        TermKind::Blank => (1, None),
        TermKind::Iri => (2, None),
        TermKind::Typed => rank_of_typed(t.text.bytes(), t.aux.bytes()),
        TermKind::Tagged => (6, None),
    }
}

/// The class of a term, 1 to 9: blank node, IRI, number, boolean, string, tagged literal, a literal
/// without a known value, a literal out of the form or the range of its datatype, date and time.
pub fn class_of(t: &Term) -> u8
    ensures { result ≡ class_of t.now }
{
    rank_of(t).0
}

/// Whether the terms of a class have a value.
pub fn has_value(class: u8) -> bool
    ensures { result ≡ has_value class }
{
    class == 3 || class == 4 || class == 9
}

/// The value of a number in units of 10^-9, of a boolean as 1 or 0, and of a date and time in
/// nanoseconds from 1970-01-01T00:00:00 UTC. Other terms have none.
pub fn number_of(t: &Term) -> Option<i128>
    ensures value { result ≡ value_of t.now }
    ensures some { IsSome result ↔ IsTrue (has_value (class_of t.now)) }
{
    rank_of(t).1
}
