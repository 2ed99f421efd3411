//! Colouring files: what their lines say, which text they are, and where a text is refused. The functions
//! without a body are laws of these definitions.
#![tactic(auto)]

ghost use Rattle.std.specs.Prelude.{◌≡◌, [], ℕ, List, Ok, Err};
ghost use Rattle.line_meaning.specs.Lines.{lines_of};
ghost use Rattle.line_meaning.specs.Changes.{Refused};
ghost use Rattle.colouring_file_meaning.specs.ColourLines.{ColourOf, ColourLinesRead, FirstColourRefused, AreFit};
ghost use Rattle.colouring_file_meaning.specs.ColourReader.{colours_of};

/// What is computed of a text is what the grammar says of its lines.
pub fn colouring_is_read()
    ensures read { (direct : ℕ) (reverse : ℕ) (bytes : List ℕ) (colours : List ColourOf) → colours_of direct reverse bytes ≡ Ok colours → ColourLinesRead direct reverse [] (lines_of bytes) colours }
    ensures refused { (direct : ℕ) (reverse : ℕ) (bytes : List ℕ) (why : Refused) → colours_of direct reverse bytes ≡ Err why → FirstColourRefused direct reverse [] (lines_of bytes) why }
    ensures fit { (direct : ℕ) (reverse : ℕ) (bytes : List ℕ) (colours : List ColourOf) → colours_of direct reverse bytes ≡ Ok colours → AreFit direct reverse colours }
{}
