/// What a term is (RDF 1.1 Concepts, section 3).
#[derive(Clone, Copy, Debug, PartialEq, Eq, Hash)]
pub enum TermKind {
    Iri,
    Blank,
    /// A literal with a language tag.
    Tagged,
    /// A literal with a datatype.
    Typed,
}
