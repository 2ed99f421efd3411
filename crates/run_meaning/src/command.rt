//! What the words of the command line ask for.

ghost use Rattle.std.specs.Prelude.{◌≡◌, ◌≤◌, IsTrue, length};
ghost use Rattle.run_meaning.specs.Limits.{are_data_names, most_data_files};

use rdf_meaning::Text;
use std::marker::Model;

/// Where the known columns of the layout come from.
#[derive(Debug, Drop)]
pub enum Layout {
    /// From the colouring of what the data holds at first.
    Colour,
    /// From nowhere: all predicates are hashed.
    Hash,
    /// From a colouring file of this name.
    File(Text),
}

/// The options of a command; those that aren't given have their default.
#[derive(Debug, Drop)]
pub struct Options {
    /// Columns of the direct side, 1 to 32.
    pub columns: u32,
    /// Columns of the reverse side, 1 to 32.
    pub reverse: u32,
    /// Hashes of a predicate that has no known column, 1 to 4.
    pub hashes: u32,
    pub layout: Layout,
    /// How many pieces work is cut into, 1 to 64.
    pub pieces: u32,
}

/// The data files of a command in the order of its words: 1 to 16 names.
#[derive(Debug, Drop)]
pub struct DataNames {
    names: Vec<Text>,
}

impl Model for DataNames {
    ghost use Rattle.std.specs.Prelude.{List, ℕ, IsTrue};
    ghost use Rattle.run_meaning.specs.Limits.{are_data_names};

    ghost Value = { List (List ℕ) };

    ghost view = { λ d. d.names.items };

    ghost invariant = { λ d. IsTrue (are_data_names d.names.items) };
}

impl DataNames {
    /// These names.
    pub fn new(names: Vec<Text>) -> DataNames
        requires { IsTrue (are_data_names names.items) }
        ensures { result ≡ names.items }
    {
        DataNames { names }
    }

    /// The names, in order.
    pub fn names(&self) -> &[Text]
        ensures value { result.now ≡ self.now }
        ensures some { 1 ≤ length self.now }
        ensures few { length self.now ≤ most_data_files }
    {
        self.names.as_slice()
    }
}

/// What the words of the command line ask for.
#[derive(Debug, Drop)]
pub enum Command {
    Query {
        options: Options,
        data: DataNames,
        query: Text,
    },
    Show {
        options: Options,
        data: DataNames,
        query: Text,
    },
    Plan {
        options: Options,
        data: DataNames,
        query: Text,
    },
    Stats {
        options: Options,
        data: DataNames,
    },
    Exec {
        pieces: u32,
        file: Text,
    },
    Drill {
        options: Options,
        count: u32,
        seed: u32,
    },
}
