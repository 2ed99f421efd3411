//! One more function on what a chain of functions gives.

ghost use Rattle.std.specs.Prelude.{◌≡◌};
ghost use Rattle.sql_gen_filter_meaning.specs.Chains.{after_str, after_lang, after_datatype};

use sql_gen_filter_meaning::{Accepted, Given, SourceText};

/// STR keeps the text of a literal and of an IRI.
pub(crate) fn after_str(given: Given) -> Given
    ensures { result ≡ after_str given }
{
    match given {
        Given::Itself => Given::PlainString(Accepted::NotBlank, SourceText::Own),
        Given::PlainString(accepted, text) | Given::Iri(accepted, text) => {
            Given::PlainString(accepted, text)
        }
        Given::Never => Given::Never,
    }
}

/// LANG gives the tag of a literal, which of a plain string is empty; an IRI has none.
pub(crate) fn after_lang(given: Given) -> Given
    ensures { result ≡ after_lang given }
{
    match given {
        Given::Itself => Given::PlainString(Accepted::Literals, SourceText::Tag),
        Given::PlainString(accepted, _) => Given::PlainString(accepted, SourceText::Empty),
        Given::Iri(..) | Given::Never => Given::Never,
    }
}

/// DATATYPE gives the datatype of a literal, which of a plain string is xsd:string; an IRI has none.
pub(crate) fn after_datatype(given: Given) -> Given
    ensures { result ≡ after_datatype given }
{
    match given {
        Given::Itself => Given::Iri(Accepted::Literals, SourceText::Datatype),
        Given::PlainString(accepted, _) => Given::Iri(accepted, SourceText::StringType),
        Given::Iri(..) | Given::Never => Given::Never,
    }
}
