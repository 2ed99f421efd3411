//! Laws that other crates may call upon.

ghost use Rattle.sql_text_spelling_laws.specs.Pieces.{PiecesAreCanonical};
ghost use Rattle.sql_text_spelling_laws.specs.Spelled.{WritableScriptsAreSpelled};

/// The canonical spelling of a script that has the forms of the dialect is the one made of pieces.
#[tactic(auto, using(crate::specs::Scripts::pieces_are_canonical))]
pub fn canonical_spellings_are_pieces()
    ensures { PiecesAreCanonical }
{}

/// The canonical spelling of a writable script spells it: it is cut into tokens that the grammar
/// reads as this script.
#[tactic(auto, using(crate::specs::Spelled::writable_scripts_are_spelled))]
pub fn writable_scripts_are_spelled()
    ensures { WritableScriptsAreSpelled }
{}
