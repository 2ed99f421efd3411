//! Refusals of a query file, and of changes, as statuses.

ghost use Rattle.std.specs.Prelude.{◌≡◌};
ghost use Rattle.run_query_meaning.specs.QueryFile.{limit_of, status_of};
ghost use Rattle.run_query_file.specs.Loaded.{load_status};

use rdf_triples::LoadRefusal;
use run_meaning::{QueryFault, Status, Which};
use sparql_reader::{QueryLimit, QueryRefusal};

fn limit_of(limit: QueryLimit) -> Which
    ensures { result ≡ limit_of limit }
{
    match limit {
        QueryLimit::Query => Which::Query,
        QueryLimit::Patterns => Which::Patterns,
        QueryLimit::Variables => Which::Variables,
        QueryLimit::Groups => Which::Groups,
        QueryLimit::Blocks => Which::Blocks,
        QueryLimit::Depth => Which::Depth,
        QueryLimit::Keys => Which::Keys,
        QueryLimit::Digits => Which::Digits,
    }
}

// A refusal of a text, as a status.
pub(crate) fn status_of(refusal: QueryRefusal) -> Status
    ensures { result ≡ status_of refusal }
{
    match refusal {
        QueryRefusal::NoMemory => Status::NoMemory,
        QueryRefusal::NotInFragment { feature, at } => Status::BadQuery {
            why: QueryFault::NotInFragment { feature, at },
        },
        QueryRefusal::Syntax { at } => Status::BadQuery {
            why: QueryFault::Syntax { at },
        },
        QueryRefusal::UnknownPrefix { at } => Status::BadQuery {
            why: QueryFault::UnknownPrefix { at },
        },
        QueryRefusal::Limit { which } => Status::Limit {
            which: limit_of(which),
        },
    }
}

/// The status of changes that aren't held: the limit that they pass, or want of memory.
pub fn load_status(refusal: LoadRefusal) -> Status
    ensures { result ≡ load_status refusal }
{
    match refusal {
        LoadRefusal::NoMemory => Status::NoMemory,
        LoadRefusal::Limit(which) => Status::Limit { which },
    }
}
