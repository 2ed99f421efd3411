//! Laws of what commands ask for.
#![tactic(auto)]

ghost use Rattle.run_outcome_laws.specs.OneOutcome.{JobsAskOnce, JobsAskSomething};

use sparql_refusal_laws::no_text_is_neither;
use sparql_refusals::{queries_are_not_refused, refusals_are_unique};
use sql_text_refusal_laws::no_sql_text_is_neither;
use table_text::texts_have_one_outcome;

/// Where its files are told, each command asks for exactly one thing.
#[tactic(auto, using(crate::specs::OneOutcome::jobs_ask_once, crate::specs::OneOutcome::jobs_ask_something))]
pub fn commands_ask_once()
    ensures once { JobsAskOnce }
    ensures something { JobsAskSomething }
{
    queries_are_not_refused();
    refusals_are_unique();
    no_text_is_neither();
    texts_have_one_outcome();
    no_sql_text_is_neither();
}
