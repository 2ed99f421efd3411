//! The quantities with limits, and the greatest numbers that are accepted.

/// Bytes of all data files together, of a colouring file, and of a file of tables and SQL.
pub const MOST_FILE: usize = 67_108_864;
/// Bytes of a line of data or of a colouring, without its end.
pub const MOST_LINE: usize = 65_536;
/// Bytes of a query file.
pub const MOST_QUERY: usize = 65_536;
/// Triple patterns of a query.
pub const MOST_PATTERNS: usize = 48;
/// Distinct variable names of a query.
pub const MOST_VARIABLES: usize = 64;
/// Groups open at once.
pub const MOST_GROUPS: usize = 24;
/// Braces opened in a query.
pub const MOST_BLOCKS: usize = 512;
/// Brackets and `!` open at once in an expression.
pub const MOST_DEPTH: usize = 48;
/// Keys of ORDER BY.
pub const MOST_KEYS: usize = 64;
/// Digits of LIMIT or OFFSET after leading zeros.
pub const MOST_DIGITS: usize = 18;
/// Terms of the dictionary.
pub const MOST_TERMS: usize = 4_000_000;
/// Triples that are present.
pub const MOST_TRIPLES: usize = 1_000_000;
/// Data files of a command.
pub const MOST_DATA_FILES: usize = 16;
/// Columns of a side.
pub const MOST_COLUMNS: u32 = 32;
/// Hashes of a predicate.
pub const MOST_HASHES: u32 = 4;
/// Pieces that work is cut into.
pub const MOST_PIECES: u32 = 64;
/// Triples that a drill adds.
pub const MOST_DRILL: u32 = 100_000;

/// A quantity whose limit a run of the program can pass.
#[derive(Clone, Copy, Debug, PartialEq, Eq)]
pub enum Which {
    /// `MOST_FILE`
    File,
    /// `MOST_LINE`
    Line,
    /// `MOST_QUERY`
    Query,
    /// `MOST_PATTERNS`
    Patterns,
    /// `MOST_VARIABLES`
    Variables,
    /// `MOST_GROUPS`
    Groups,
    /// `MOST_BLOCKS`
    Blocks,
    /// `MOST_DEPTH`
    Depth,
    /// `MOST_KEYS`
    Keys,
    /// `MOST_DIGITS`
    Digits,
    /// `MOST_TERMS`
    Terms,
    /// `MOST_TRIPLES`
    Triples,
}
