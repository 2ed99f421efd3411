//! A law of queries and refusals: no text is neither.
#![tactic(auto)]

ghost use Rattle.sparql_refusal_laws.specs.EachText.{NoTextIsNeither};

/// No text is neither the one query of the fragment that it is nor refused.
// With the laws that no query is refused and that a text is refused in one way: each text is one query, or has one refusal.
#[tactic(auto, using(crate::specs::EachText::no_text_is_neither))]
pub fn no_text_is_neither()
    ensures { NoTextIsNeither }
{}
