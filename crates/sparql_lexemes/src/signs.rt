//! Words and marks as the grammar sees them.

ghost use Rattle.std.specs.Prelude.{◌≡◌, IfOk};
ghost use Rattle.sparql_query_meaning.specs.Lexemes.{boolean, word_lexeme, mark_lexeme};
ghost use Rattle.sparql_grammar_meaning.specs.declared.lexeme.Lexeme.TheVariants as lexemes;

use query_meaning::{CompareOp, TermTest};
use rdf_meaning::{KnownDatatype, Term, TermKind, Text, text_of};
use sparql_grammar_meaning::{Function, Lexeme, Sign};
use sparql_meaning::{Mark, Word};
use std::alloc::{AllocError, Global};

fn boolean(alloc: Global, text: &str) -> Result<Lexeme, AllocError>
    ensures { IfOk result (λ x. x ≡ lexemes.Literal (boolean text.now)) }
{
    Ok(Lexeme::Literal(Term {
        kind: TermKind::Typed,
        text: text_of(alloc, text)?,
        aux: Text::known(KnownDatatype::Boolean),
    }))
}

pub(crate) fn word_lexeme(alloc: Global, word: Word) -> Result<Lexeme, AllocError>
    ensures { IfOk result (λ x. x ≡ word_lexeme word) }
{
    let lexeme = match word {
        Word::Prefix => Lexeme::Sign(Sign::Prefix),
        Word::Select => Lexeme::Sign(Sign::Select),
        Word::Distinct => Lexeme::Sign(Sign::Distinct),
        Word::Where => Lexeme::Sign(Sign::Where),
        Word::Optional => Lexeme::Sign(Sign::Optional),
        Word::Union => Lexeme::Sign(Sign::Union),
        Word::Filter => Lexeme::Sign(Sign::Filter),
        Word::A => Lexeme::Sign(Sign::A),
        Word::True => boolean(alloc, "true")?,
        Word::False => boolean(alloc, "false")?,
        Word::Not => Lexeme::Sign(Sign::Not),
        Word::In => Lexeme::Sign(Sign::In),
        Word::Str => Lexeme::Function(Function::Str),
        Word::Lang => Lexeme::Function(Function::Lang),
        Word::Datatype => Lexeme::Function(Function::Datatype),
        Word::Bound => Lexeme::Sign(Sign::Bound),
        Word::SameTerm => Lexeme::Sign(Sign::SameTerm),
        Word::IsIri => Lexeme::Test(TermTest::Iri),
        Word::IsBlank => Lexeme::Test(TermTest::Blank),
        Word::IsLiteral => Lexeme::Test(TermTest::Literal),
        Word::Order => Lexeme::Sign(Sign::Order),
        Word::By => Lexeme::Sign(Sign::By),
        Word::Asc => Lexeme::Direction(false),
        Word::Desc => Lexeme::Direction(true),
        Word::Limit => Lexeme::Sign(Sign::Limit),
        Word::Offset => Lexeme::Sign(Sign::Offset),
        Word::LeftOut(_) | Word::Unknown => Lexeme::Sign(Sign::Other),
    };
    Ok(lexeme)
}

pub(crate) fn mark_lexeme(mark: Mark) -> Lexeme
    ensures { result ≡ mark_lexeme mark }
{
    match mark {
        Mark::OpenBrace => Lexeme::Sign(Sign::OpenBrace),
        Mark::CloseBrace => Lexeme::Sign(Sign::CloseBrace),
        Mark::OpenBracket => Lexeme::Sign(Sign::OpenBracket),
        Mark::CloseBracket => Lexeme::Sign(Sign::CloseBracket),
        Mark::Dot => Lexeme::Sign(Sign::Dot),
        Mark::Semicolon => Lexeme::Sign(Sign::Semicolon),
        Mark::Comma => Lexeme::Sign(Sign::Comma),
        Mark::Star => Lexeme::Sign(Sign::Star),
        Mark::Equal => Lexeme::Compare(CompareOp::Equal),
        Mark::NotEqual => Lexeme::Compare(CompareOp::NotEqual),
        Mark::Less => Lexeme::Compare(CompareOp::Less),
        Mark::Greater => Lexeme::Compare(CompareOp::Greater),
        Mark::LessEqual => Lexeme::Compare(CompareOp::LessEqual),
        Mark::GreaterEqual => Lexeme::Compare(CompareOp::GreaterEqual),
        Mark::Not => Lexeme::Sign(Sign::Bang),
        Mark::And => Lexeme::Sign(Sign::And),
        Mark::Or => Lexeme::Sign(Sign::Or),
        Mark::TwoCarets => Lexeme::Sign(Sign::TwoCarets),
        Mark::OpenSquare
        | Mark::CloseSquare
        | Mark::Slash
        | Mark::Plus
        | Mark::Minus
        | Mark::Pipe
        | Mark::Caret
        | Mark::Question => Lexeme::Sign(Sign::Other),
    }
}
