//! Texts, which contracts see as their bytes.

ghost use Rattle.std.specs.Prelude.{◌≡◌, IfOk, IfSome, nat_eq};
ghost use Rattle.std.specs.Str.{IsUtf8};
ghost use Rattle.std.specs.Hash as fed;
ghost use Rattle.std.specs.Cmp as comparisons;
ghost use Rattle.std.specs.Cmp.Lexicographic.{pointwise, nat_list_eq_equiv};
ghost use Rattle.std.specs.Cmp.Rules.{hashing};
ghost use Rattle.std.proofs.Common.{rules};
ghost use Rattle.rdf_meaning.specs.Known.{known_bytes};

use std::alloc::{AllocError, Global};
use std::hash::{Hash, Hasher};
use std::marker::Model;

/// A datatype whose literals have values (XML Schema 1.1, part 2, section 3): its IRI costs no memory.
#[derive(Clone, Copy, Debug, PartialEq, Eq)]
pub enum KnownDatatype {
    String,
    Boolean,
    Decimal,
    Integer,
    Long,
    Int,
    Short,
    Byte,
    UnsignedLong,
    UnsignedInt,
    UnsignedShort,
    UnsignedByte,
    NonNegativeInteger,
    PositiveInteger,
    NonPositiveInteger,
    NegativeInteger,
    DateTime,
}

impl KnownDatatype {
    /// The datatype's IRI.
    pub fn iri(self) -> &'static str
        ensures { result.now ≡ known_bytes self }
    {
        match self {
            KnownDatatype::String => "http://www.w3.org/2001/XMLSchema#string",
            KnownDatatype::Boolean => "http://www.w3.org/2001/XMLSchema#boolean",
            KnownDatatype::Decimal => "http://www.w3.org/2001/XMLSchema#decimal",
            KnownDatatype::Integer => "http://www.w3.org/2001/XMLSchema#integer",
            KnownDatatype::Long => "http://www.w3.org/2001/XMLSchema#long",
            KnownDatatype::Int => "http://www.w3.org/2001/XMLSchema#int",
            KnownDatatype::Short => "http://www.w3.org/2001/XMLSchema#short",
            KnownDatatype::Byte => "http://www.w3.org/2001/XMLSchema#byte",
            KnownDatatype::UnsignedLong => "http://www.w3.org/2001/XMLSchema#unsignedLong",
            KnownDatatype::UnsignedInt => "http://www.w3.org/2001/XMLSchema#unsignedInt",
            KnownDatatype::UnsignedShort => "http://www.w3.org/2001/XMLSchema#unsignedShort",
            KnownDatatype::UnsignedByte => "http://www.w3.org/2001/XMLSchema#unsignedByte",
            KnownDatatype::NonNegativeInteger =>
                "http://www.w3.org/2001/XMLSchema#nonNegativeInteger",
            KnownDatatype::PositiveInteger => "http://www.w3.org/2001/XMLSchema#positiveInteger",
            KnownDatatype::NonPositiveInteger =>
                "http://www.w3.org/2001/XMLSchema#nonPositiveInteger",
            KnownDatatype::NegativeInteger => "http://www.w3.org/2001/XMLSchema#negativeInteger",
            KnownDatatype::DateTime => "http://www.w3.org/2001/XMLSchema#dateTime",
        }
    }
}

#[derive(Debug, Drop)]
enum Inner {
    Owned(String),
    Known(KnownDatatype),
}

/// A text: bytes that are UTF-8.
#[derive(Debug, Drop)]
pub struct Text {
    inner: Inner,
}

impl Model for Text {
    ghost use Rattle.std.specs.Prelude.{List, ℕ};
    ghost use Rattle.std.specs.Coded.{coded_list, coded_ℕ};
    ghost use Rattle.rdf_meaning.specs.Texts.{inner_bytes};

    ghost Value = { List ℕ };

    ghost coded = { coded_list coded_ℕ };

    ghost view = { λ t. inner_bytes t.inner };
}

/// The text with these bytes.
pub fn text_of(alloc: Global, s: &str) -> Result<Text, AllocError>
    ensures { IfOk result (λ text. text ≡ s.now) }
{
    Ok(Text {
        inner: Inner::Owned(String::from_str(alloc, s)?),
    })
}

impl Text {
    /// The IRI of a datatype; takes no memory.
    pub fn known(datatype: KnownDatatype) -> Text
        ensures { result ≡ known_bytes datatype }
    {
        Text {
            inner: Inner::Known(datatype),
        }
    }

    pub fn as_str(&self) -> &str
        ensures { result.now ≡ self.now }
    {
        match &self.inner {
            Inner::Owned(text) => text.as_str(),
            Inner::Known(datatype) => datatype.iri(),
        }
    }

    pub fn bytes(&self) -> &[u8]
        ensures value { result.now ≡ self.now }
        ensures utf8 { IsUtf8 self.now }
    {
        self.as_str().as_bytes()
    }

    /// An equal text.
    pub fn copy(&self, alloc: Global) -> Result<Text, AllocError>
        ensures { IfOk result (λ text. text ≡ self.now) }
    {
        match &self.inner {
            Inner::Owned(text) => text_of(alloc, text.as_str()),
            Inner::Known(datatype) => Ok(Text::known(*datatype)),
        }
    }
}

impl PartialEq for Text {
    ghost eq = { pointwise nat_eq };

    ghost laws = { comparisons.partial_equiv_from_equiv nat_list_eq_equiv };

    fn eq(&self, other: &Text) -> bool {
        self.as_str() == other.as_str()
    }
}

impl Eq for Text {
    ghost laws = { nat_list_eq_equiv };
}

impl Hash for Text {
    ghost hash_input = { fed.str };

    ghost respects_eq = { Prim.search (hashing, rules) };

    fn hash<H: Hasher>(&self, state: &mut H) {
        self.as_str().hash(state);
    }
}
