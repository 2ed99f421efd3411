//! Numbers of steps that stand further on.

ghost use Rattle.std.specs.Prelude.{◌≡◌, ◌+◌, ◌++◌, length, IfOk};
ghost use Rattle.sql_gen_numbered_meaning.specs.Numbered.{shift, shifted};

use sql_gen_numbered_meaning::NumberedBody;
use std::alloc::AllocError;

/// The number of a step that stands `by` places further on. No memory holds steps beyond the last number.
pub(crate) fn further(by: usize, number: usize) -> Result<usize, AllocError>
    ensures { IfOk result (λ n. n ≡ by + number) }
{
    let Some(number) = by.checked_add(number) else {
        return Err(AllocError);
    };
    Ok(number)
}

/// A step whose earlier steps stand further on.
pub(crate) fn shift(by: usize, body: NumberedBody) -> Result<NumberedBody, AllocError>
    ensures { IfOk result (λ b. b ≡ shift by body) }
{
    Ok(match body {
        NumberedBody::Single => NumberedBody::Single,
        NumberedBody::Access {
            side,
            spilled,
            entity,
            arms,
        } => NumberedBody::Access {
            side,
            spilled,
            entity,
            arms,
        },
        NumberedBody::Pairs {
            side,
            entity,
            predicate,
            columns,
        } => NumberedBody::Pairs {
            side,
            entity,
            predicate,
            columns,
        },
        NumberedBody::Open {
            side,
            first,
            firsts,
            arm,
            later,
            asked,
        } => NumberedBody::Open {
            side,
            first: further(by, first)?,
            firsts,
            arm,
            later,
            asked,
        },
        NumberedBody::Joined {
            left,
            first,
            second,
            firsts,
            seconds,
            certain,
        } => NumberedBody::Joined {
            left,
            first: further(by, first)?,
            second: further(by, second)?,
            firsts,
            seconds,
            certain,
        },
        NumberedBody::United {
            first,
            second,
            firsts,
            seconds,
        } => NumberedBody::United {
            first: further(by, first)?,
            second: further(by, second)?,
            firsts,
            seconds,
        },
        NumberedBody::Filtered {
            first,
            firsts,
            terms,
            condition,
        } => NumberedBody::Filtered {
            first: further(by, first)?,
            firsts,
            terms,
            condition,
        },
        NumberedBody::Matched {
            first,
            second,
            firsts,
            seconds,
            certain,
        } => NumberedBody::Matched {
            first: further(by, first)?,
            second: further(by, second)?,
            firsts,
            seconds,
            certain,
        },
        NumberedBody::Passed {
            pairs,
            firsts,
            seconds,
            terms,
            condition,
        } => NumberedBody::Passed {
            pairs: further(by, pairs)?,
            firsts,
            seconds,
            terms,
            condition,
        },
        NumberedBody::Optional {
            first,
            pairs,
            firsts,
            seconds,
            certain,
        } => NumberedBody::Optional {
            first: further(by, first)?,
            pairs: further(by, pairs)?,
            firsts,
            seconds,
            certain,
        },
        NumberedBody::Distinct {
            first,
            firsts,
            shown,
        } => NumberedBody::Distinct {
            first: further(by, first)?,
            firsts,
            shown,
        },
    })
}

/// The steps of a second part behind those of a first, numbered on from these.
pub(crate) fn put_behind(
    mut steps: Vec<NumberedBody>,
    seconds: Vec<NumberedBody>,
) -> Result<Vec<NumberedBody>, AllocError>
    ensures { IfOk result (λ all. all.items ≡ steps.items ++ shifted (length steps.items) seconds.items) }
{
    let count = steps.len();
    for body in seconds {
        steps.push(shift(count, body)?)?;
    }
    Ok(steps)
}
