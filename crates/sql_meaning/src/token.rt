use rdf_meaning::Text;

/// A token that is written in one way: a capital word or a sign.
#[derive(Clone, Copy, Debug, PartialEq, Eq)]
pub enum Mark {
    With,
    As,
    Union,
    All,
    Select,
    Distinct,
    From,
    Where,
    Order,
    By,
    Limit,
    Offset,
    Join,
    Left,
    On,
    Desc,
    True,
    False,
    Cast,
    Null,
    Int,
    Text,
    Truth,
    And,
    Or,
    Not,
    Is,
    Case,
    When,
    Then,
    Else,
    End,
    Coalesce,
    Open,
    Close,
    Comma,
    Dot,
    Equal,
    Less,
}

/// A part of a script's text.
#[derive(Debug, Drop)]
pub enum Token {
    Mark(Mark),
    Name(Text),
    Int(i128),
    Text(Text),
    /// What is no token of a script.
    Broken,
}

/// A token, and the place of its first byte in the text.
#[derive(Debug, Drop)]
pub struct Placed {
    pub token: Token,
    pub at: usize,
}

/// What stands between the parts of AND, OR and COALESCE.
#[derive(Clone, Copy, Debug, PartialEq, Eq)]
pub enum Separator {
    And,
    Or,
    Comma,
}

/// What a byte begins where a token or a blank may stand.
#[derive(Clone, Copy, Debug, PartialEq, Eq)]
pub enum Opening {
    Blank,
    Sign(Mark),
    /// A text.
    Quote,
    /// A word, a name or a number.
    Run,
    /// A negative number, where a digit stands behind.
    Minus,
    Nothing,
}
