//! What a token that breaks the grammar belongs to.

ghost use Rattle.std.specs.Prelude.{◌≡◌, if◌then◌else◌, Some, None};
ghost use Rattle.std.specs.Option.{option_copied};
ghost use Rattle.sparql_meaning.specs.declared.word.Feature.TheVariants as features;
ghost use Rattle.sparql_query_meaning.specs.Features.{opens_expression, is_name, is_filter, is_signed, word_feature, mark_feature, feature};

use sparql_meaning::{Feature, Mark, TokenKind, Word};

// Whether NOT behind this token begins NOT EXISTS.
fn opens_expression(before: Option<&TokenKind>) -> bool
    ensures { result ≡ opens_expression (option_copied before.entry) }
{
    match before {
        Some(TokenKind::Word(Word::Filter)) => true,
        Some(TokenKind::Mark(Mark::OpenBracket)) => true,
        Some(TokenKind::Mark(Mark::And)) => true,
        Some(TokenKind::Mark(Mark::Or)) => true,
        Some(TokenKind::Mark(Mark::Not)) => true,
        _ => false,
    }
}

fn is_name(before: Option<&TokenKind>) -> bool
    ensures { result ≡ is_name (option_copied before.entry) }
{
    match before {
        Some(TokenKind::Iri(_)) => true,
        Some(TokenKind::Named(_, _)) => true,
        _ => false,
    }
}

fn is_filter(before: Option<&TokenKind>) -> bool
    ensures { result ≡ is_filter (option_copied before.entry) }
{
    match before {
        Some(TokenKind::Word(Word::Filter)) => true,
        _ => false,
    }
}

fn is_signed(text: &[u8]) -> bool
    ensures { result ≡ is_signed text.now }
{
    match text.split_first() {
        None => false,
        Some((first, _)) => *first == b'+' || *first == b'-',
    }
}

fn word_feature(before: Option<&TokenKind>, word: Word) -> Option<Feature>
    ensures { result ≡ word_feature (option_copied before.entry) word }
{
    match word {
        Word::LeftOut(feature) => Some(feature),
        Word::Select => Some(Feature::SubSelect),
        Word::Not => {
            if opens_expression(before) {
                Some(Feature::Exists)
            } else {
                Some(Feature::TruthOperand)
            }
        }
        Word::Str | Word::Lang | Word::Datatype => Some(Feature::Function),
        Word::In | Word::Bound | Word::SameTerm | Word::IsIri | Word::IsBlank | Word::IsLiteral =>
            Some(Feature::TruthOperand),
        Word::Prefix
        | Word::Distinct
        | Word::Where
        | Word::Optional
        | Word::Union
        | Word::Filter
        | Word::A
        | Word::True
        | Word::False
        | Word::Order
        | Word::By
        | Word::Asc
        | Word::Desc
        | Word::Limit
        | Word::Offset
        | Word::Unknown => None,
    }
}

fn mark_feature(before: Option<&TokenKind>, mark: Mark) -> Option<Feature>
    ensures { result ≡ mark_feature (option_copied before.entry) mark }
{
    match mark {
        Mark::OpenBracket => {
            if is_name(before) {
                Some(Feature::Function)
            } else {
                Some(Feature::Brackets)
            }
        }
        Mark::OpenSquare | Mark::CloseSquare => Some(Feature::BlankNode),
        Mark::Plus | Mark::Minus | Mark::Star | Mark::Slash => Some(Feature::Operator),
        Mark::Pipe | Mark::Caret | Mark::Question => Some(Feature::Path),
        Mark::Not => Some(Feature::Not),
        Mark::Equal
        | Mark::NotEqual
        | Mark::Less
        | Mark::Greater
        | Mark::LessEqual
        | Mark::GreaterEqual
        | Mark::And
        | Mark::Or => Some(Feature::TruthOperand),
        Mark::OpenBrace
        | Mark::CloseBrace
        | Mark::CloseBracket
        | Mark::Dot
        | Mark::Semicolon
        | Mark::Comma
        | Mark::TwoCarets => None,
    }
}

fn name_feature(before: Option<&TokenKind>) -> Option<Feature>
    ensures { result ≡ (if is_filter (option_copied before.entry) then Some features.Function else None) }
{
    if is_filter(before) {
        Some(Feature::Function)
    } else {
        None
    }
}

fn number_feature(text: &[u8]) -> Option<Feature>
    ensures { result ≡ (if is_signed text.now then Some features.Operator else None) }
{
    if is_signed(text) {
        Some(Feature::Operator)
    } else {
        None
    }
}

/// The feature of a token, with the token before it, or none.
pub(crate) fn feature(before: Option<&TokenKind>, kind: &TokenKind) -> Option<Feature>
    ensures { result ≡ feature (option_copied before.entry) kind.now }
{
    match kind {
        TokenKind::Word(word) => word_feature(before, *word),
        TokenKind::Mark(mark) => mark_feature(before, *mark),
        TokenKind::Iri(_) | TokenKind::Named(_, _) => name_feature(before),
        TokenKind::Blank(_) => Some(Feature::BlankNode),
        TokenKind::Double(_) => Some(Feature::Double),
        TokenKind::LongText(_) => Some(Feature::LongText),
        TokenKind::Integer(text) | TokenKind::Decimal(text) => number_feature(text.bytes()),
        TokenKind::Variable(_) | TokenKind::Text(_) | TokenKind::Tag(_) => None,
    }
}
