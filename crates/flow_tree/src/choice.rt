//! Which of two choices is taken.

ghost use Rattle.std.specs.Prelude.{◌≡◌, ◌<◌};
ghost use Rattle.std.specs.Ordering.{is_le};
ghost use Rattle.query_flow_meaning.specs.Flow.{method_rank, choice_order, better, flow_step};

use crate::costs::cost;
use pred_columns::Counts;
use query_flow_meaning::{FlowStep, Method};
use query_meaning::Pattern;
use std::marker::Model;

/// A pattern, and how it is looked up.
#[derive(Drop)]
pub struct Choice<'a> {
    pub pattern: &'a Pattern,
    pub method: Method,
}

impl<'a> Model for Choice<'a> {
    ghost use Rattle.query_flow_meaning.specs.Flow.{Choice};

    ghost Value = { Choice };

    ghost view = { λ c. record { pattern = c.pattern.now; method = c.method } };
}

fn rank(method: Method) -> u8
    ensures { result ≡ method_rank method }
{
    match method {
        Method::Direct => 0,
        Method::Reverse => 1,
        Method::Scan => 2,
    }
}

// By cost, then by the pattern's number, then by the method.
#[tactic(auto, using(crate::proofs::Ranks::order_laws))]
fn is_at_most(counts: &Counts, one: &Choice<'_>, other: &Choice<'_>) -> bool
    requires { counts.now.triples < 0xffffffffffffffff }
    ensures { result ≡ is_le (choice_order counts.now one.now other.now) }
{
    let own = cost(counts, one.pattern, one.method);
    let others = cost(counts, other.pattern, other.method);
    if own != others {
        return own < others;
    }
    if one.pattern.number != other.pattern.number {
        return one.pattern.number < other.pattern.number;
    }
    rank(one.method) <= rank(other.method)
}

/// The other choice where it is allowed and comes before the best one so far.
pub(crate) fn better<'a>(
    counts: &Counts,
    allowed: bool,
    best: Choice<'a>,
    other: Choice<'a>,
) -> Choice<'a>
    requires { counts.now.triples < 0xffffffffffffffff }
    ensures { result ≡ better counts.now allowed best.entry other.entry }
{
    if allowed && !is_at_most(counts, &best, &other) {
        other
    } else {
        best
    }
}

/// The choice as a step of the flow.
pub(crate) fn step_of(counts: &Counts, choice: &Choice<'_>) -> FlowStep
    requires { counts.now.triples < 0xffffffffffffffff }
    ensures { result ≡ flow_step counts.now choice.now }
{
    FlowStep {
        pattern: choice.pattern.number,
        method: choice.method,
        cost: cost(counts, choice.pattern, choice.method),
    }
}
