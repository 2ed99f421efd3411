//! What every query of the fragment keeps to.

ghost use Rattle.query_meaning.specs.declared.query.Query.{Query};
ghost use Rattle.sparql_query_meaning.specs.Fragment.{OfFragment};
ghost use Rattle.sparql_translation_laws.specs.TreePatterns.{tree_patterns};
ghost use Rattle.sparql_fragment_laws.specs.Numbers.{NumberedFrom};
ghost use Rattle.sparql_query_laws.specs.Limits.{HasLimits};
ghost use Rattle.sparql_query_laws.specs.Names.{HasNames};

/// A query of the fragment has at most 48 patterns, 64 names and 64 keys, its connectives stand at most 97 deep inside one
/// another, and it leaves out, and keeps, fewer than 10^18 rows where it says how many.
// For the stars of a plan, for the columns of each step of the compiler, and for the depth of its SQL.
pub fn limits_are_kept()
    ensures { (q : Query) → OfFragment q → HasLimits q }
{}

/// Each variable of a query of the fragment, also of its expressions and of its modifiers, has a name, and each is shown once at
/// most.
// For the columns of each step of the compiler, and for its last SELECT.
pub fn variables_have_names()
    ensures { (q : Query) → OfFragment q → HasNames q }
{}

/// The patterns of a query of the fragment have the numbers from 1 on, in order of the text.
// For the stars of a plan, which name their patterns by these numbers.
pub fn patterns_are_numbered()
    ensures { (q : Query) → OfFragment q → NumberedFrom 1 (tree_patterns q.tree) }
{}
