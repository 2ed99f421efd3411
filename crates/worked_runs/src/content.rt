//! The lines of a case that say bytes.

use crate::escapes::push_unescaped;
use crate::template::Template;
use anyhow::{Context, Result, bail, ensure};
use std::alloc::Global;

/// No line is repeated with a greater number.
const MOST_REPEATED: u64 = 4_000_000;

// The text behind the mark of a line, and what ends it: `| TEXT` ends with a line feed, `+ TEXT` with nothing.
fn marked(line: &str) -> Result<(&str, &'static str)> {
    let (mark, text) = line.split_once(' ').unwrap_or((line, ""));
    match mark {
        "|" => Ok((text, "\n")),
        "+" => Ok((text, "")),
        _ => bail!("a text stands behind | or +"),
    }
}

// Appends a line `FIRST to LAST | TEXT`, or one with `+`, once for each number.
fn push_repeated(alloc: Global, line: &str, into: &mut Vec<u8>) -> Result<()> {
    let (first, behind) = line.split_once(" to ").context("FIRST to LAST")?;
    let (last, marked_text) = behind.split_once(' ').context("a text behind LAST")?;
    let first: u64 = first.parse()?;
    let last: u64 = last.parse()?;
    ensure!(last <= MOST_REPEATED, "repeated too often");
    let (text, end) = marked(marked_text)?;
    let template = Template::parse(alloc, text)?;
    for i in first..last + 1 {
        template.push(i, into)?;
        into.extend_from_slice(end.as_bytes())?;
    }
    Ok(())
}

/// Appends the bytes of a line of content.
pub fn push_content(alloc: Global, line: &str, into: &mut Vec<u8>) -> Result<()> {
    if let Some(repeated) = line.strip_prefix("repeat ") {
        return push_repeated(alloc, repeated, into);
    }
    let (text, end) = marked(line)?;
    push_unescaped(text, into)?;
    into.extend_from_slice(end.as_bytes())?;
    Ok(())
}
