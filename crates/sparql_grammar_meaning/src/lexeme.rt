//! Tokens as the grammar sees them.

use query_meaning::{CompareOp, TermTest, VarId};
use rdf_meaning::{Term, Text};
use sparql_meaning::LanguageTag;

/// A word or a mark of the grammar that stands for itself.
#[derive(Clone, Copy, Debug, PartialEq, Eq)]
pub enum Sign {
    Prefix,
    Select,
    Distinct,
    Where,
    Optional,
    Union,
    Filter,
    /// `a`, which stands for rdf:type.
    A,
    Not,
    In,
    Bound,
    SameTerm,
    Order,
    By,
    Limit,
    Offset,
    OpenBrace,
    CloseBrace,
    OpenBracket,
    CloseBracket,
    Dot,
    Semicolon,
    Comma,
    Star,
    /// `!`
    Bang,
    And,
    Or,
    TwoCarets,
    /// A token that the grammar has nowhere.
    Other,
}

/// A function that takes a value and gives one.
#[derive(Clone, Copy, Debug, PartialEq, Eq)]
pub enum Function {
    Str,
    Lang,
    Datatype,
}

/// A token with its variable's number and its IRI, as the grammar reads it.
#[derive(Debug, Drop)]
pub enum Lexeme {
    Sign(Sign),
    Variable(VarId),
    Iri(Text),
    /// The IRI of a prefixed name.
    Named(Text),
    /// The IRI of a prefixed name without a local part.
    PrefixName(Text),
    Text(Text),
    Tag(LanguageTag),
    /// An integer without a sign, and its number.
    Count(Term, u64),
    /// Another number, or a boolean.
    Literal(Term),
    Function(Function),
    /// `isIRI`, `isBlank` or `isLiteral`.
    Test(TermTest),
    Compare(CompareOp),
    /// `ASC`, or `DESC`, which is true.
    Direction(bool),
}
