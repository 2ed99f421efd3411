//! What a chain of STR, LANG and DATATYPE makes of the term at its beginning.

/// The terms that the innermost function accepts; others are an error.
#[derive(Clone, Copy, Debug, PartialEq, Eq)]
pub enum Accepted {
    /// IRIs and literals.
    NotBlank,
    /// Literals alone.
    Literals,
}

/// The one text that a chain keeps of its term, or the fixed one that it puts in its place.
#[derive(Clone, Copy, Debug, PartialEq, Eq)]
pub enum SourceText {
    /// The term's own text.
    Own,
    /// The tag of a tagged literal, and the empty text of another one.
    Tag,
    /// The IRI of the datatype.
    Datatype,
    Empty,
    /// The IRI of xsd:string.
    StringType,
}

/// What a chain gives, however long it is.
#[derive(Clone, Copy, Debug, PartialEq, Eq)]
pub enum Given {
    /// The term: there is no function.
    Itself,
    /// A plain string with this text, of accepted terms.
    PlainString(Accepted, SourceText),
    /// An IRI with this text, of accepted terms.
    Iri(Accepted, SourceText),
    /// An error, whichever the term is.
    Never,
}
