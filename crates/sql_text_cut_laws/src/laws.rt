//! Laws that other crates may call upon.

ghost use Rattle.sql_text_cut_laws.specs.OneCut.{TextsHaveOneCut};
ghost use Rattle.sql_text_cut_laws.specs.Outcomes.{SpelledTextsDontBreak};

/// A text is cut into tokens in one way.
#[tactic(auto, using(crate::specs::OneCut::texts_have_one_cut))]
pub fn texts_have_one_cut()
    ensures { TextsHaveOneCut }
{}

/// A text that spells a script breaks nowhere.
pub fn spelled_texts_dont_break()
    ensures { SpelledTextsDontBreak }
{}
