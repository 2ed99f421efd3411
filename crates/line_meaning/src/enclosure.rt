/// What stands between two marks.
#[derive(Clone, Copy, Debug, PartialEq, Eq)]
pub enum Enclosure {
    /// An IRI between angle brackets.
    Iri,
    /// A literal's text between double quotes.
    Text,
}
