//! A whole text, read as a query.

ghost use Rattle.std.specs.Prelude.{◌≡◌, ◌≤◌, length, IfOk, IfErr, Ok};
ghost use Rattle.sparql_meaning.specs.Cut.{cut};
ghost use Rattle.sparql_query_meaning.specs.Queries.{most_bytes};
ghost use Rattle.sparql_refusals.specs.Outcomes.{ReadsTokens, Refuses, ReadsAs};

use query_meaning::Syntax;
use sparql_cursor::Refusal;
use sparql_faults::first_fault;
use sparql_grammar::read_written;
use sparql_lexemes::lexemes;
use sparql_meaning::Token;
use sparql_query_meaning::{QueryLimit, QueryRefusal};
use sparql_refusals::{faulty_at, read_front, refused};
use sparql_syntax::syntax;
use sparql_tokens::{TokenRefusal, tokens};
use std::alloc::Global;

/// The most bytes of a query.
const MOST_BYTES: usize = 65_536;

// The tokens of a text, read. The grammar goes before a fault at the same token, and no token behind the first fault counts.
#[tactic(auto, using(sparql_refusals::specs::Outcomes::token_paths))]
fn read_tokens(alloc: Global, bytes: &[u8], tokens: &[Token]) -> Result<Syntax, QueryRefusal>
    requires cut { cut bytes.now ≡ Ok tokens.now }
    requires short { length bytes.now ≤ most_bytes }
    ensures reads { IfOk result (λ s. ReadsTokens tokens.now s) }
    ensures refuses { IfErr result (λ r. Refuses bytes.now r) }
{
    let fault = first_fault(alloc, tokens)?;
    let read = read_front(tokens, fault);
    let lexed = lexemes(alloc, &tokens[..read])?;
    match read_written(alloc, lexed.lexemes.as_slice()) {
        Ok(written) => match fault {
            None => Ok(syntax(alloc, lexed.names, written)?),
            Some(fault) => Err(faulty_at(bytes, tokens, fault)),
        },
        Err(Refusal::NoMemory) => Err(QueryRefusal::NoMemory),
        Err(Refusal::Syntax { left }) => Err(refused(bytes, tokens, fault, read, left)),
    }
}

// A text within the limit of its bytes.
#[tactic(auto, using(sparql_refusals::specs::Outcomes::text_paths))]
fn read_short(alloc: Global, bytes: &[u8]) -> Result<Syntax, QueryRefusal>
    requires { length bytes.now ≤ most_bytes }
    ensures reads { IfOk result (λ s. ReadsAs bytes.now s) }
    ensures refuses { IfErr result (λ r. Refuses bytes.now r) }
{
    match tokens(alloc, bytes) {
        Ok(tokens) => read_tokens(alloc, bytes, tokens.as_slice()),
        Err(TokenRefusal::NoMemory) => Err(QueryRefusal::NoMemory),
        Err(TokenRefusal::Bad { at }) => Err(QueryRefusal::Syntax { at }),
    }
}

/// Reads the one query that a text is, as it is written (SPARQL 1.1 Query, section 19.8, as far as the fragment goes). A refusal
/// names the first token with which the tokens begin no query of the grammar, or that is a name whose prefix isn't declared, or
/// at which a limit is passed, in this order at one token; a text that is too long goes before all, and then a text that isn't
/// cut into tokens.
#[tactic(auto, using(sparql_refusals::specs::Outcomes::length_paths))]
pub fn read_syntax(alloc: Global, bytes: &[u8]) -> Result<Syntax, QueryRefusal>
    ensures reads { IfOk result (λ s. ReadsAs bytes.now s) }
    ensures refuses { IfErr result (λ r. Refuses bytes.now r) }
{
    if bytes.len() > MOST_BYTES {
        return Err(QueryRefusal::Limit {
            which: QueryLimit::Query,
        });
    }
    read_short(alloc, bytes)
}
