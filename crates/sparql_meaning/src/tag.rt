//! Language tags.

ghost use Rattle.std.specs.Prelude.{◌≡◌, IsTrue, IfSome};
ghost use Rattle.std.specs.Option.{is_some};
ghost use Rattle.rdf_meaning.specs.Terms.{is_tag};

use rdf_meaning::Text;
use std::marker::Model;

/// A language tag in lower case (N-Triples 1.1, LANGTAG).
#[derive(Debug, Drop)]
pub struct LanguageTag {
    text: Text,
}

impl Model for LanguageTag {
    ghost use Rattle.std.specs.Prelude.{List, ℕ, IsTrue};
    ghost use Rattle.std.specs.Coded.{coded_list, coded_ℕ};
    ghost use Rattle.rdf_meaning.specs.Terms.{is_tag};

    ghost Value = { List ℕ };

    ghost coded = { coded_list coded_ℕ };

    ghost view = { λ t. t.text };

    ghost invariant = { λ t. IsTrue (is_tag t.text) };
}

impl LanguageTag {
    /// The text as a tag, where it is one.
    pub fn new(text: Text) -> Option<LanguageTag>
        ensures tag { IfSome result (λ t. t ≡ text) }
        ensures valid { is_some result ≡ is_tag text }
    {
        if is_tag(text.bytes()) {
            Some(LanguageTag { text })
        } else {
            None
        }
    }

    pub fn text(&self) -> &Text
        ensures value { result.now ≡ self.now }
        ensures valid { IsTrue (is_tag self.now) }
    {
        &self.text
    }
}

// Whether these bytes have the form of a tag.
fn is_tag(bytes: &[u8]) -> bool
    ensures { result ≡ is_tag bytes.now }
{
    let mut first = true;
    let mut some = false;
    for b in bytes {
        if *b == b'-' {
            if !some {
                return false;
            }
            first = false;
            some = false;
        } else if b.is_ascii_lowercase() || !first && b.is_ascii_digit() {
            some = true;
        } else {
            return false;
        }
    }
    some
}
