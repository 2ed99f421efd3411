//! The tokens of a query (SPARQL 1.1 Query, section 19.8).

use crate::tag::LanguageTag;
use crate::word::Word;
use rdf_meaning::Text;

/// A mark of one or two characters.
#[derive(Clone, Copy, Debug, PartialEq, Eq)]
pub enum Mark {
    OpenBrace,
    CloseBrace,
    OpenBracket,
    CloseBracket,
    OpenSquare,
    CloseSquare,
    Dot,
    Semicolon,
    Comma,
    Star,
    Slash,
    Plus,
    Minus,
    Equal,
    NotEqual,
    Less,
    Greater,
    LessEqual,
    GreaterEqual,
    Not,
    And,
    Or,
    Pipe,
    Caret,
    TwoCarets,
    Question,
}

/// What a token is, with its text where it has one. Escapes are decoded in texts and IRIs, and a number is as it is written.
#[derive(Debug, Drop)]
pub enum TokenKind {
    Iri(Text),
    /// A prefix without its colon, and the name behind the colon.
    Named(Text, Text),
    /// The name without its `?` or `$`.
    Variable(Text),
    Text(Text),
    /// A text between three quotes on each side.
    LongText(Text),
    Tag(LanguageTag),
    /// The label without its `_:`.
    Blank(Text),
    Integer(Text),
    Decimal(Text),
    Double(Text),
    Word(Word),
    Mark(Mark),
}

/// A token, from its first byte to behind its last one.
#[derive(Debug, Drop)]
pub struct Token {
    pub kind: TokenKind,
    pub from: usize,
    pub to: usize,
}

/// The token that begins at a place, and how many characters it has.
#[derive(Debug, Drop)]
pub struct Found {
    pub kind: TokenKind,
    pub chars: usize,
}

/// What a text with escapes stands between.
#[derive(Clone, Copy, Debug, PartialEq, Eq)]
pub enum Quoting {
    /// Angle brackets.
    Iri,
    /// One of these quotes on each side.
    Text(char),
    /// Three of these quotes on each side.
    Long(char),
}

/// What an escape stands for, and how many characters it has.
#[derive(Clone, Copy, Debug)]
pub struct Escape {
    pub value: char,
    pub chars: usize,
}

/// A text up to its closing marks, decoded, and how many characters it has with them.
#[derive(Debug, Drop)]
pub struct Body {
    pub text: Text,
    pub chars: usize,
}
