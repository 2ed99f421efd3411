//! A file of cases, cut into its cases.

use anyhow::{Context, Result};
use std::alloc::{AllocError, Global};

/// A line of a case, and its number in the file, from 1.
#[derive(Clone, Copy)]
pub struct Line<'a> {
    pub number: u64,
    pub text: &'a str,
}

/// The lines of a case: those that are given for all cases from here on, and then its own.
#[derive(Drop)]
pub struct Block<'a> {
    pub title: &'a str,
    pub lines: Vec<Line<'a>>,
}

/// What stands before the values of a case that is run once for each of them.
const EACH: &str = "each";

impl<'a> Block<'a> {
    fn new(alloc: Global, title: &'a str, given: &[Line<'a>]) -> Result<Block<'a>, AllocError> {
        Ok(Block {
            title,
            lines: given.to_vec(alloc)?,
        })
    }

    /// The values for which the case is run, which is one empty text where it lists none.
    pub fn values(&self, alloc: Global) -> Result<Vec<&'a str>, AllocError> {
        let mut values = Vec::new(alloc);
        for line in self.lines.as_slice() {
            if let Some(list) = line.text.strip_prefix(EACH) {
                push_values(&mut values, list)?;
            }
        }
        if values.is_empty() {
            values.push("")?;
        }
        Ok(values)
    }
}

fn push_values<'a>(values: &mut Vec<&'a str>, list: &'a str) -> Result<(), AllocError> {
    values.clear();
    for value in list.split('|') {
        values.push(value.trim_ascii())?;
    }
    Ok(())
}

/// The cases of a file. A line `given` begins lines for all cases that follow, up to the next `given`, a line `case TITLE` a case.
/// Empty lines and those that begin with `#` say nothing.
pub fn blocks_of<'a>(alloc: Global, text: &'a str) -> Result<Vec<Block<'a>>> {
    let mut given = Vec::new(alloc);
    let mut blocks: Vec<Block<'a>> = Vec::new(alloc);
    let mut in_given = false;
    let mut number = 0u64;
    for line in text.split('\n') {
        number = number.saturating_add(1);
        if line.is_empty() || line.starts_with('#') {
            continue;
        }
        if line == "given" {
            given.clear();
            in_given = true;
        } else if let Some(title) = line.strip_prefix("case ") {
            blocks.push(Block::new(alloc, title, &given)?)?;
            in_given = false;
        } else if in_given {
            given.push(Line { number, text: line })?;
        } else {
            let block = blocks
                .last_mut()
                .context(format_args!("line {number}: no case is begun"))?;
            block.lines.push(Line { number, text: line })?;
        }
    }
    Ok(blocks)
}
