//! The colours of the lines so far.

ghost use Rattle.std.specs.Prelude.{◌≡◌, ◌∷◌, ◌++◌, [], map, OnOk, OnErr};
ghost use Rattle.colouring_file.specs.Colours.{colour_of, has_place};

use crate::places::note;
use rdf_meaning::{SideName, Text};
use std::alloc::{AllocError, Global};
use std::collections::HashSet;
use std::marker::Model;

/// The column, counted from 0, that the predicate with this IRI has on a side.
#[derive(Debug, Drop)]
pub struct ColourLine {
    pub side: SideName,
    pub iri: Text,
    pub column: u32,
}

/// The colours of lines in their order. Contracts see them as a list.
#[derive(Drop)]
pub(crate) struct Colours {
    lines: Vec<ColourLine>,
    direct: HashSet<Text>,
    reverse: HashSet<Text>,
}

impl Model for Colours {
    ghost use Rattle.std.specs.Prelude.{List, map};
    ghost use Rattle.colouring_file_meaning.specs.ColourLines.{ColourOf};
    ghost use Rattle.colouring_file.specs.Colours.{colour_of, AreFound};

    ghost Value = { List ColourOf };

    ghost view = { λ c. map colour_of c.lines.items };

    ghost invariant = { λ c. AreFound (map colour_of c.lines.items) c.direct c.reverse };
}

impl Colours {
    pub(crate) fn new(alloc: Global) -> Colours
        ensures { result ≡ [] }
    {
        Colours {
            lines: Vec::new(alloc),
            direct: HashSet::new(alloc),
            reverse: HashSet::new(alloc),
        }
    }

    /// Whether a line before has this side and this IRI.
    pub(crate) fn has(&self, side: SideName, iri: &Text) -> bool
        ensures { result ≡ has_place side iri.now self.now }
    {
        match side {
            SideName::Direct => self.direct.contains(iri),
            SideName::Reverse => self.reverse.contains(iri),
        }
    }

    pub(crate) fn push(&mut self, alloc: Global, line: ColourLine) -> Result<(), AllocError>
        ensures { OnOk result (self.new ≡ self.old ++ colour_of line ∷ []) }
    {
        self.lines.reserve(1)?;
        let iri = line.iri.copy(alloc)?;
        note(&mut self.direct, &mut self.reverse, line.side, iri)?;
        self.lines.push_reserved(line);
        Ok(())
    }

    pub(crate) fn into_lines(self) -> Vec<ColourLine>
        ensures { map colour_of result.items ≡ self }
    {
        self.lines
    }
}
