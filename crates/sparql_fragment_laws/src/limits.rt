//! What the limits of a text say of its tokens.

ghost use Rattle.std.specs.Prelude.{◌≡◌, Bool, List, None};
ghost use Rattle.sparql_meaning.specs.declared.token.Token.{Token};
ghost use Rattle.sparql_query_meaning.specs.declared.refusal.QueryLimit.{QueryLimit};
ghost use Rattle.sparql_query_meaning.specs.Limits.{fault_from, nothing_yet};
ghost use Rattle.sparql_fragment_laws.specs.Within.{Within, state_behind};

/// A text without a fault is within the limits that count behind its last token.
// For the counts of what the text's query is made of.
pub fn texts_stay_within()
    ensures { (counts : QueryLimit → Bool) (ts : List Token) → fault_from counts nothing_yet ts ≡ None → Within counts (state_behind nothing_yet ts) }
{}
