//! All lines of a data file.

ghost use Rattle.std.specs.Prelude.{◌≡◌, ◌∷◌, ◌<◌, ◌≤◌, ◌+◌, ℕ, IfSome, length, ◌==◌, if◌then◌else◌};
ghost use Rattle.std.specs.List.{prefix_len};
ghost use Rattle.line_meaning.specs.Lines.{lines_from, lines_of, is_inner};
ghost use Rattle.line_meaning.specs.Changes.{before, line_changes, changes_of};
ghost use Rattle.nt_lines.specs.Refusals.{Gives, IsReading, lines_after};

use crate::line::{Said, read_line};
use crate::refusal::LineRefusal;
use line_change_meaning::Change;
use line_laws::lines_are_read;
use std::alloc::Global;

/// The most bytes that a line may have.
pub const MAX_LINE: usize = 65536;

// How many bytes stand before the first end of a line.
fn line_len(bytes: &[u8]) -> usize
    ensures { result ≡ prefix_len is_inner bytes.now }
{
    for (i, byte) in bytes.iter().enumerate() {
        if *byte == b'\n' || *byte == b'\r' {
            return i;
        }
    }
    bytes.len()
}

// How much the number of lines rises at an end.
fn rise_of(end: u8) -> u64
    ensures { result ≡ (if end == 10 then 1 else 0) }
{
    if end == b'\n' { 1 } else { 0 }
}

/// The first line, and where an end comes what follows it, with how much the number of lines rises.
pub fn split_line(bytes: &[u8]) -> (&[u8], Option<(&[u8], u64)>)
    ensures lines { (n : ℕ) → lines_from n bytes.now ≡ record { number = n; text = result.0.now } ∷ lines_after n result.1 }
    ensures shorter { IfSome result.1 (λ x. length x.0.now + x.1 ≤ length bytes.now) }
    ensures falls { IfSome result.1 (λ x. length x.0.now < length bytes.now) }
{
    let len = line_len(bytes);
    if len >= bytes.len() {
        return (bytes, None);
    }
    let rise = rise_of(bytes[len]);
    (&bytes[..len], Some((&bytes[len + 1..], rise)))
}

// Adds what a line changes.
fn add_line(
    alloc: Global,
    file: u32,
    line: u64,
    text: &[u8],
    changes: &mut Vec<Change>,
) -> Result<(), LineRefusal>
    ensures { Gives (λ _. changes.new.items) result
        (before changes.old.items (line_changes file record { number = line; text = text.now })) }
{
    if text.len() > MAX_LINE {
        return Err(LineRefusal::TooLong { line });
    }
    match read_line(alloc, file, text)? {
        Said::Nothing => {}
        Said::Change(change) => changes.push(change)?,
        Said::Bad => return Err(LineRefusal::Bad { line }),
    }
    Ok(())
}

// Goes from line to line.
fn read_lines(alloc: Global, bytes: &[u8], file: u32) -> Result<Vec<Change>, LineRefusal>
    ensures { Gives (λ changes. changes.items) result (changes_of file bytes.now) }
{
    let mut changes = Vec::new(alloc);
    let mut rest = bytes;
    let mut line = 1;
    'lines: loop {
        let (text, after) = split_line(rest);
        add_line(alloc, file, line, text, &mut changes)?;
        let Some((tail, rise)) = after else {
            return Ok(changes);
        };
        rest = tail;
        line += rise;
    }
}

/// The changes of all lines of a data file, `file` being its number from 0, or its first line that is
/// refused: `TooLong` where it has more than 65,536 bytes, else `Bad` where it is out of the grammar of
/// data lines. `value` says so by the readings that are computed, and `grammar` by the grammar itself.
pub fn read_changes(alloc: Global, bytes: &[u8], file: u32) -> Result<Vec<Change>, LineRefusal>
    ensures value { Gives (λ changes. changes.items) result (changes_of file bytes.now) }
    ensures grammar { IsReading file (λ changes. changes.items) result (lines_of bytes.now) }
{
    lines_are_read();
    read_lines(alloc, bytes, file)
}
