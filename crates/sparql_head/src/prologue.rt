//! Declarations of prefixes. Which IRI a name stands for was settled with the tokens.

ghost use Rattle.std.specs.Prelude.{IfOk, IfErr, MatchOption, ◌∷◌, ◌≡◌, ◌<◌, ◌≤◌, length};
ghost use Rattle.sparql_grammar_meaning.specs.Grammar.{Prefix_, Prologue_, nothing_made, prefix_name, iri};
ghost use Rattle.sparql_grammar_meaning.specs.declared.lexeme.Lexeme.TheVariants as lexeme;
ghost use Rattle.sparql_grammar_meaning.specs.declared.lexeme.Sign.TheVariants as signs;
ghost use Rattle.sparql_cursor.specs.Outcomes.{Gets, Stops, IsNot};

use rdf_meaning::Text;
use sparql_cursor::{Refusal, after_sign, next};
use sparql_grammar_meaning::{Lexeme, Sign};

fn after_prefix_name(tokens: &[Lexeme]) -> Option<(&Text, &[Lexeme])>
    ensures { MatchOption result (IsNot prefix_name tokens.now) (λ r. tokens.now ≡ lexeme.PrefixName r.0.now ∷ r.1.now) }
{
    match next(tokens) {
        Some((Lexeme::PrefixName(text), rest)) => Some((text, rest)),
        _ => None,
    }
}

fn after_iri(tokens: &[Lexeme]) -> Option<(&Text, &[Lexeme])>
    ensures { MatchOption result (IsNot iri tokens.now) (λ r. tokens.now ≡ lexeme.Iri r.0.now ∷ r.1.now) }
{
    match next(tokens) {
        Some((Lexeme::Iri(text), rest)) => Some((text, rest)),
        _ => None,
    }
}

// What stands behind `PREFIX`.
#[tactic(auto, using(crate::specs::HeadSteps::prefix_paths))]
fn read_prefix(tokens: &[Lexeme]) -> Result<&[Lexeme], Refusal>
    ensures reads { IfOk result (λ r. Gets Prefix_ (lexeme.Sign signs.Prefix ∷ tokens.now) nothing_made r.now) }
    ensures shorter { IfOk result (λ r. length r.now < length tokens.now) }
    ensures refuses { IfErr result (λ e. Stops Prefix_ (lexeme.Sign signs.Prefix ∷ tokens.now) e) }
{
    let Some((_, rest)) = after_prefix_name(tokens) else {
        return Err(Refusal::Syntax { left: tokens.len() })
    };
    match after_iri(rest) {
        Some((_, rest)) => Ok(rest),
        None => Err(Refusal::Syntax { left: rest.len() }),
    }
}

/// Reads declarations of prefixes.
#[tactic(auto, using(crate::specs::HeadSteps::prologue_paths))]
pub(crate) fn read_prologue(tokens: &[Lexeme]) -> Result<&[Lexeme], Refusal>
    ensures reads { IfOk result (λ r. Gets Prologue_ tokens.now nothing_made r.now) }
    ensures shorter { IfOk result (λ r. length r.now ≤ length tokens.now) }
    ensures refuses { IfErr result (λ e. Stops Prologue_ tokens.now e) }
{
    let mut rest = tokens;
    while let Some(after) = after_sign(rest, Sign::Prefix) {
        rest = read_prefix(after)?;
    }
    Ok(rest)
}
