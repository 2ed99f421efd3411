//! Laws that other crates may call upon.

ghost use Rattle.line_laws.specs.LineLaws.{IsSound, IsComplete, ChangesAreRead, RefusalsAreFirst, ReadingsAreComputed, RefusalsAreComputed, OneReading, OneRefusal, NeverBoth, NeverNeither, LabelsAreLegal, LabelsStayApart};

/// A line is read as the grammar says, and no other line is read; so a file's changes are those of
/// its lines, and it is refused for its first line that is refused.
pub fn lines_are_read()
    ensures sound { IsSound }
    ensures complete { IsComplete }
    ensures changes { ChangesAreRead }
    ensures refusals { RefusalsAreFirst }
{}

/// What the lines of a file read as in the grammar is what is computed of them, and so is the first line
/// that is refused. So a file has one list of changes or one first refused line, never both and never
/// neither.
pub fn files_are_read_once()
    ensures readings { ReadingsAreComputed }
    ensures refusals { RefusalsAreComputed }
    ensures one_reading { OneReading }
    ensures one_refusal { OneRefusal }
    ensures never_both { NeverBoth }
    ensures never_neither { NeverNeither }
{}

/// A label is legal in each data file, and labels of two files, or two labels of one, are never confused.
pub fn labels_are_kept_apart()
    ensures legal { LabelsAreLegal }
    ensures apart { LabelsStayApart }
{}
