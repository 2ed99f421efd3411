//! What the depths along a text say of its query.

ghost use Rattle.std.specs.Prelude.{◌≡◌, ℕ, Bool, List, Ok};
ghost use Rattle.query_meaning.specs.declared.query.Query.{Query};
ghost use Rattle.sparql_meaning.specs.declared.token.Token.{Token};
ghost use Rattle.sparql_meaning.specs.Cut.{cut};
ghost use Rattle.sparql_query_meaning.specs.declared.refusal.QueryLimit.{QueryLimit};
ghost use Rattle.sparql_query_meaning.specs.Queries.{IsQueryWithin};
ghost use Rattle.sparql_nesting_laws.specs.Nesting.{DepthsAre, LimitsAre};

/// The depths that the limits count along a text that is a query, whichever limits count, are exact: the greatest depth at a token is
/// that to which the grammar nests brackets and `!` in an expression, and the greatest number of open groups that to which it nests
/// groups. Where tokens are read in more than one way, each way nests as deep.
// For the limits, which are met by these depths.
pub fn depths_are_exact()
    ensures { (counts : QueryLimit → Bool) (bytes : List ℕ) (ts : List Token) (q : Query) → IsQueryWithin counts bytes q → cut bytes ≡ Ok ts → DepthsAre ts }
{}

/// The limits on brackets and `!` open at once, 48, and on groups open at once, 24, refuse no more and no less than the texts that nest
/// deeper: whichever other limits count, a text is a query under such a limit just where it is one without it and the grammar nests it
/// within the limit.
// For the limits, which are these.
pub fn depth_limits_are_exact()
    ensures { (counts : QueryLimit → Bool) (bytes : List ℕ) (ts : List Token) → cut bytes ≡ Ok ts → LimitsAre counts bytes ts }
{}
