//! Laws that other crates may call upon.

ghost use Rattle.sparql_token_laws.specs.Laws.{CutIsOnly, CutIsRight, EachIsCutOrBreaks, FoundIsSpelled, NeverBoth, NoneIsLonger, NoneIsSpelled, OneBadPlace, OneCut};

/// Of the tokens that are spelled at a place, none is longer than the one that is found there, and one that is as long has its
/// kind; where none is found, none is spelled.
pub fn no_longer_token_is_spelled()
    ensures longer { NoneIsLonger }
    ensures none { NoneIsSpelled }
{}

/// The token that is found at a place is spelled there by its kind.
pub fn found_tokens_are_spelled()
    ensures { FoundIsSpelled }
{}

/// The cut of a text is the one cut by longest tokens with blanks and comments between them; where there is none it ends at the
/// first bad place.
pub fn texts_are_cut_by_longest_tokens()
    ensures right { CutIsRight }
    ensures only { CutIsOnly }
{}

/// A text is cut by longest tokens or has a first bad place; it has one cut, or one such place, and never both.
pub fn texts_have_one_outcome()
    ensures either { EachIsCutOrBreaks }
    ensures one { OneCut }
    ensures place { OneBadPlace }
    ensures apart { NeverBoth }
{}
