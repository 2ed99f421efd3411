//! All lines of a colouring file.

ghost use Rattle.std.specs.Prelude.{IfOk, map};
ghost use Rattle.line_meaning.specs.Lines.{lines_of};
ghost use Rattle.nt_lines.specs.Refusals.{Gives};
ghost use Rattle.colouring_file_meaning.specs.ColourLines.{AreFit};
ghost use Rattle.colouring_file_meaning.specs.ColourReader.{with_line, with_reading, colours_of};
ghost use Rattle.colouring_file.specs.Colours.{colour_of};
ghost use Rattle.colouring_file.specs.Readings.{reading, ReadsColours};

use crate::colours::{ColourLine, Colours};
use crate::line::{Said, read_line};
use colouring_file_meaning::colouring_is_read;
use nt_lines::{LineRefusal, MAX_LINE, split_line};
use std::alloc::Global;

// Adds what a line says.
fn add_said(alloc: Global, colours: &mut Colours, line: u64, said: Said) -> Result<(), LineRefusal>
    ensures { Gives (λ _. colours.new) result (with_reading line colours.old (reading said)) }
{
    match said {
        Said::Nothing => Ok(()),
        Said::Colour(colour) => {
            if colours.has(colour.side, &colour.iri) {
                return Err(LineRefusal::Bad { line });
            }
            colours.push(alloc, colour)?;
            Ok(())
        }
        Said::Bad => Err(LineRefusal::Bad { line }),
    }
}

fn add_line(
    alloc: Global,
    colours: &mut Colours,
    line: u64,
    text: &[u8],
    direct: u32,
    reverse: u32,
) -> Result<(), LineRefusal>
    ensures { Gives (λ _. colours.new) result (with_line direct reverse colours.old record { number = line; text = text.now }) }
{
    if text.len() > MAX_LINE {
        return Err(LineRefusal::TooLong { line });
    }
    let said = read_line(alloc, text, direct, reverse)?;
    add_said(alloc, colours, line, said)
}

// Goes from line to line.
fn read_lines(
    alloc: Global,
    bytes: &[u8],
    direct: u32,
    reverse: u32,
) -> Result<Colours, LineRefusal>
    ensures { Gives (λ colours. colours) result (colours_of direct reverse bytes.now) }
{
    let mut colours = Colours::new(alloc);
    let mut rest = bytes;
    let mut line = 1;
    'lines: loop {
        let (text, after) = split_line(rest);
        add_line(alloc, &mut colours, line, text, direct, reverse)?;
        let Some((tail, rise)) = after else {
            return Ok(colours);
        };
        rest = tail;
        line += rise;
    }
}

fn read_all(
    alloc: Global,
    bytes: &[u8],
    direct: u32,
    reverse: u32,
) -> Result<Vec<ColourLine>, LineRefusal>
    ensures { Gives (λ lines. map colour_of lines.items) result (colours_of direct reverse bytes.now) }
{
    let colours = read_lines(alloc, bytes, direct, reverse)?;
    Ok(colours.into_lines())
}

/// The colours of all lines of a text for sides with these counts of columns, or its first line that is
/// refused: `TooLong` where it has more than 65,536 bytes, else `Bad` where it is out of the grammar of
/// colouring files, its column isn't below its side's count, or its side and IRI stood on a line before.
/// `value` says so by the readings that are computed, and `grammar` by the grammar itself. `fit` is what
/// columns of both sides ask of known ones.
pub fn read_colouring(
    alloc: Global,
    bytes: &[u8],
    direct: u32,
    reverse: u32,
) -> Result<Vec<ColourLine>, LineRefusal>
    ensures value { Gives (λ lines. map colour_of lines.items) result (colours_of direct reverse bytes.now) }
    ensures grammar { ReadsColours direct reverse (λ lines. map colour_of lines.items) result (lines_of bytes.now) }
    ensures fit { IfOk result (λ lines. AreFit direct reverse (map colour_of lines.items)) }
{
    colouring_is_read();
    read_all(alloc, bytes, direct, reverse)
}
