//! The least of all that may be chosen.

ghost use Rattle.std.specs.Prelude.{◌≡◌, ◌<◌};
ghost use Rattle.sparql_variables.specs.Bits.{members};
ghost use Rattle.query_flow_meaning.specs.Flow.{with_pattern};
ghost use Rattle.flow_tree.specs.Taken.{is_taken, left_by, least_choice};

use crate::choice::{Choice, better};
use crate::costs::allows;
use pred_columns::Counts;
use query_flow_meaning::Method;
use query_meaning::Pattern;
use sparql_variables::VarSet;

// The better of a choice and those of one pattern, where these variables are bound.
fn with_pattern<'a>(
    counts: &Counts,
    bound: &VarSet,
    best: Choice<'a>,
    pattern: &'a Pattern,
) -> Choice<'a>
    requires { counts.now.triples < 0xffffffffffffffff }
    ensures { result ≡ with_pattern counts.now (members bound.now) best.entry pattern.now }
{
    let direct = better(
        counts,
        allows(bound, pattern, Method::Direct),
        best,
        Choice {
            pattern,
            method: Method::Direct,
        },
    );
    let reverse = better(
        counts,
        allows(bound, pattern, Method::Reverse),
        direct,
        Choice {
            pattern,
            method: Method::Reverse,
        },
    );
    better(
        counts,
        true,
        reverse,
        Choice {
            pattern,
            method: Method::Scan,
        },
    )
}

fn is_taken(taken: &[Choice<'_>], pattern: &Pattern) -> bool
    ensures { result ≡ is_taken taken.now pattern.now }
{
    taken
        .iter()
        .any(|choice| choice.pattern.number == pattern.number)
}

/// The least choice of a pattern that isn't taken, where there is one and these variables are bound.
#[tactic(auto, using(crate::proofs::Choosing::least_laws))]
pub(crate) fn least<'a>(
    counts: &Counts,
    bound: &VarSet,
    patterns: &'a [Pattern],
    taken: &[Choice<'a>],
) -> Option<Choice<'a>>
    requires { counts.now.triples < 0xffffffffffffffff }
    ensures { result ≡ least_choice counts.now (members bound.now) (left_by taken.now patterns.now) }
{
    let mut best = None;
    for pattern in patterns {
        if !is_taken(taken, pattern) {
            let start = best.unwrap_or(Choice {
                pattern,
                method: Method::Scan,
            });
            best = Some(with_pattern(counts, bound, start, pattern));
        }
    }
    best
}
