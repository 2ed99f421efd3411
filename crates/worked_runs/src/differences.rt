//! What came in the place of what was wanted.

use crate::case::Case;
use crate::escapes::escaped;
use crate::runs::Outcome;
use std::alloc::{AllocError, Global};

fn push_difference(
    alloc: Global,
    what: &str,
    wanted: &[u8],
    came: &[u8],
    into: &mut Vec<String>,
) -> Result<(), AllocError> {
    let wanted = escaped(alloc, wanted)?;
    let came = escaped(alloc, came)?;
    into.push(format!(in alloc; "{what}: wanted `{wanted}`, and `{came}` came")?)?;
    Ok(())
}

// Whether the output of a run is the wanted one, or begins so where no more is wanted.
fn out_fits(case: &Case, out: &[u8]) -> bool {
    if case.out_is_front {
        out.starts_with(&case.out)
    } else {
        out == case.out.as_slice()
    }
}

/// A line for the code and for each output that is another one.
pub fn differences(
    alloc: Global,
    case: &Case,
    outcome: &Outcome,
) -> Result<Vec<String>, AllocError> {
    let mut lines = Vec::new(alloc);
    if case.code != outcome.code {
        lines.push(format!(in alloc; "code: wanted {}, and {} came", case.code, outcome.code)?)?;
    }
    if !out_fits(case, &outcome.out) {
        push_difference(alloc, "out", &case.out, &outcome.out, &mut lines)?;
    }
    if case.error != outcome.error {
        push_difference(alloc, "error", &case.error, &outcome.error, &mut lines)?;
    }
    Ok(lines)
}
