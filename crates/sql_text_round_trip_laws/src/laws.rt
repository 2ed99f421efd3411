//! Laws that other crates may call upon.

ghost use Rattle.sql_text_round_trip_laws.specs.RoundTrip.{CanonicalSpellingsAreNotDeep, CanonicalSpellingsAreNotRefused, CanonicalSpellingsAreReadBack, CanonicalSpellingsSpellTheirScriptOnly};

/// The canonical spelling of a writable script has no deep token.
#[tactic(auto, using(crate::specs::RoundTrip::canonical_spellings_are_not_deep))]
pub fn canonical_spellings_are_not_deep()
    ensures { CanonicalSpellingsAreNotDeep }
{}

/// Where the canonical spelling of a writable script spells one script alone, it is this script.
#[tactic(auto, using(crate::specs::RoundTrip::canonical_spellings_spell_their_script_only))]
pub fn canonical_spellings_spell_their_script_only()
    ensures { CanonicalSpellingsSpellTheirScriptOnly }
{}

/// Nothing but want of memory refuses the canonical spelling of a writable script.
#[tactic(auto, using(crate::specs::RoundTrip::canonical_spellings_are_not_refused))]
pub fn canonical_spellings_are_not_refused()
    ensures { CanonicalSpellingsAreNotRefused }
{}

/// Whatever the reader may answer for the canonical spelling of a writable script is this script,
/// or want of memory.
#[tactic(auto, using(crate::specs::RoundTrip::canonical_spellings_are_read_back))]
pub fn canonical_spellings_are_read_back()
    ensures { CanonicalSpellingsAreReadBack }
{}
