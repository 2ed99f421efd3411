//! Laws that other crates may call upon.

ghost use Rattle.sql_text_reading_laws.specs.Depths.{ReadScriptsAreWritable, SpelledScriptsHaveForms, SpelledTextsAreDeepByDepth};
ghost use Rattle.sql_text_reading_laws.specs.OneScript.{TextsSpellOneScript};

/// A text spells one script at most.
pub fn texts_spell_one_script()
    ensures { TextsSpellOneScript }
{}

/// The script that a text spells has the lists, names, counts and bodies that texts have.
pub fn spelled_scripts_have_forms()
    ensures { SpelledScriptsHaveForms }
{}

/// A text that spells a script has a deep token exactly where the script's depth passes 1,024.
pub fn spelled_texts_are_deep_by_depth()
    ensures { SpelledTextsAreDeepByDepth }
{}

/// A script that is spelled by a text without deep tokens is writable.
pub fn read_scripts_are_writable()
    ensures { ReadScriptsAreWritable }
{}
