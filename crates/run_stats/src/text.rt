//! The text of statistics.

ghost use Rattle.std.specs.Prelude.{◌≡◌, ◌++◌, ◌∷◌, [], IfOk, OnOk};
ghost use Rattle.layout_stats_meaning.specs.Statistics.{counted, side_text, stats_text};

use itoa::Buffer;
use rdf_layout::{SideStats, Stats};
use std::alloc::{AllocError, Global};

// A word and a number, with a blank between.
fn write_counted(word: &str, number: u64, onto: &mut Vec<u8>) -> Result<(), AllocError>
    ensures { OnOk result (onto.new.items ≡ onto.old.items ++ counted word.now number) }
{
    onto.extend_from_slice(word.as_bytes())?;
    onto.push(b' ')?;
    let mut buffer = Buffer::new();
    onto.extend_from_slice(buffer.format(number).as_bytes())
}

// A line of a word and a number.
fn write_line(word: &str, number: u64, onto: &mut Vec<u8>) -> Result<(), AllocError>
    ensures { OnOk result (onto.new.items ≡ onto.old.items ++ counted word.now number ++ 10 ∷ []) }
{
    write_counted(word, number, onto)?;
    onto.push(b'\n')?;
    Ok(())
}

// The line of a side.
fn write_side(side: &str, stats: &SideStats, onto: &mut Vec<u8>) -> Result<(), AllocError>
    ensures { OnOk result (onto.new.items ≡ onto.old.items ++ side_text side.now stats.now) }
{
    onto.extend_from_slice(side.as_bytes())?;
    write_counted(" columns", u64::from(stats.columns), onto)?;
    write_counted(" rows", stats.rows, onto)?;
    write_counted(" lists", stats.lists, onto)?;
    write_counted(" spilled", stats.spilled, onto)?;
    onto.push(b'\n')?;
    Ok(())
}

/// The four lines of statistics.
pub(crate) fn text_of(alloc: Global, stats: &Stats) -> Result<Vec<u8>, AllocError>
    ensures { IfOk result (λ text. text.items ≡ stats_text stats.now) }
{
    let mut text = Vec::new(alloc);
    write_line("triples", stats.triples, &mut text)?;
    write_line("terms", stats.terms, &mut text)?;
    write_side("direct", &stats.direct, &mut text)?;
    write_side("reverse", &stats.reverse, &mut text)?;
    Ok(text)
}
