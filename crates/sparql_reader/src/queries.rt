//! A whole text, read as a query of the algebra.

ghost use Rattle.std.specs.Prelude.{IfOk, IfErr};
ghost use Rattle.sparql_refusals.specs.Outcomes.{Refuses};
ghost use Rattle.sparql_query_meaning.specs.Queries.{IsTheQuery};
ghost use Rattle.sparql_reader.specs.Queries.{IsNoQuery};

use crate::reading::read_syntax;
use query_meaning::Query;
use sparql_query_meaning::QueryRefusal;
use sparql_translation::translate;
use std::alloc::Global;

/// Reads the one query of the fragment that a text is (SPARQL 1.1 Query, sections 18.2 and 19.8, as far as the fragment goes). A
/// text is refused exactly where it is no query, at the place and for the reason that `read_syntax` names.
#[tactic(auto, using(crate::specs::Queries::query_paths))]
pub fn read_query(alloc: Global, bytes: &[u8]) -> Result<Query, QueryRefusal>
    ensures reads { IfOk result (λ q. IsTheQuery bytes.now q) }
    ensures refuses { IfErr result (λ r. Refuses bytes.now r) }
    ensures none { IfErr result (λ r. IsNoQuery bytes.now r) }
{
    let syntax = read_syntax(alloc, bytes)?;
    Ok(translate(alloc, &syntax)?)
}
