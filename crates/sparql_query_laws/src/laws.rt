//! What the counts along a text say of its query.

ghost use Rattle.std.specs.Prelude.{◌≡◌, ℕ, Bool, true, List, Ok};
ghost use Rattle.query_meaning.specs.declared.query.Query.{Query};
ghost use Rattle.sparql_meaning.specs.declared.token.Token.{Token};
ghost use Rattle.sparql_meaning.specs.Cut.{cut};
ghost use Rattle.sparql_query_meaning.specs.declared.refusal.QueryLimit.{QueryLimit};
ghost use Rattle.sparql_query_meaning.specs.declared.refusal.QueryLimit.TheVariants as limits;
ghost use Rattle.sparql_query_meaning.specs.Queries.{IsQueryWithin};
ghost use Rattle.sparql_query_laws.specs.Limits.{CountsAre};

/// Behind the last token of a text that is a query, whichever limits count beside that on depth, the counts are exact: as many
/// patterns, keys and names as the query has, as many blocks as there are `{`, and no open group.
// For the limits, which are met by these counts.
pub fn counts_are_exact()
    ensures { (counts : QueryLimit → Bool) → counts limits.Depth ≡ true → (bytes : List ℕ) (ts : List Token) (q : Query) → IsQueryWithin counts bytes q → cut bytes ≡ Ok ts → CountsAre ts q }
{}
