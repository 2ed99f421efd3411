//! What the grammar says of a text, whatever a reader answers.

ghost use Rattle.sparql_reading_laws.specs.OneQuery.{TextsAreOneQuery};

/// A text is one query of the fragment at most: brackets round a value may be read as the value's or as a truth's, and both
/// readings are the same tree.
pub fn texts_are_one_query()
    ensures { TextsAreOneQuery }
{}
