//! Reading the query of a text.

ghost use Rattle.std.specs.Prelude.{IfOk, IfErr, Err};
ghost use Rattle.run_files_meaning.specs.Refusal.{RefusedAs};
ghost use Rattle.run_query_meaning.specs.QueryFile.{QueryAsks};
ghost use Rattle.sparql_query_meaning.specs.Fragment.{OfFragment};
ghost use Rattle.sparql_query_meaning.specs.Queries.{IsTheQuery};

use crate::refusals::status_of;
use query_meaning::Query;
use run_meaning::Status;
use sparql_reader::read_query;
use std::alloc::Global;

/// The query of a text, which is one of the fragment, or the status that the text asks for where it is none.
pub fn query_asked(alloc: Global, text: &[u8]) -> Result<Query, Status>
    ensures query { IfOk result (IsTheQuery text.now) }
    ensures fragment { IfOk result OfFragment }
    ensures refused { IfErr result (λ status. RefusedAs status (λ s. QueryAsks text.now (Err s))) }
{
    match read_query(alloc, text) {
        Ok(query) => Ok(query),
        Err(refusal) => Err(status_of(refusal)),
    }
}
