//! The laws that other crates may call upon.

ghost use Rattle.line_spelling_laws.specs.RoundTrip.{SpellingsAreUtf8, SubjectsAreRead, PredicatesAreRead, ObjectsAreRead, LinesAreRead};

/// The spelling of a term is UTF-8. A spelled subject, predicate or object is read again in each data
/// file as the same term, but for blank nodes, whose labels belong to the file.
pub fn spelled_terms_are_read()
    ensures utf8 { SpellingsAreUtf8 }
    ensures subjects { SubjectsAreRead }
    ensures predicates { PredicatesAreRead }
    ensures objects { ObjectsAreRead }
{}

/// A line of three spellings and a full stop adds their triple.
pub fn spelled_triples_are_read()
    ensures { LinesAreRead }
{}
