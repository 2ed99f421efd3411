//! Laws that other crates may call upon.

ghost use Rattle.sql_text_refusal_laws.specs.EachAnswer.{NoSqlTextIsNeitherReadNorRefused};
ghost use Rattle.sql_text_refusal_laws.specs.EachCut.{TextsHaveACut};
ghost use Rattle.sql_text_refusal_laws.specs.EachText.{NoSqlTextIsNeither};

/// Each text is cut into tokens.
#[tactic(auto, using(crate::specs::EachCut::texts_have_a_cut))]
pub fn texts_have_a_cut()
    ensures { TextsHaveACut }
{}

/// No text neither spells a script without deep tokens, nor has a deep token, nor breaks at a place.
#[tactic(auto, using(crate::specs::EachText::no_sql_text_is_neither))]
pub fn no_sql_text_is_neither()
    ensures { NoSqlTextIsNeither }
{}

/// There is no text for which the contract of `read_sql` allows nothing but want of memory.
#[tactic(auto, using(crate::specs::EachAnswer::no_sql_text_is_neither_read_nor_refused))]
pub fn no_sql_text_is_neither_read_nor_refused()
    ensures { NoSqlTextIsNeitherReadNorRefused }
{}
