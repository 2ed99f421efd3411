//! Which solutions are kept.

ghost use Rattle.std.specs.Prelude.{IfOk, IfErr, ◌∷◌, ◌<◌, ◌≤◌, length};
ghost use Rattle.sparql_grammar_meaning.specs.Grammar.{Slice_, a_cut, cut_of};
ghost use Rattle.sparql_grammar_meaning.specs.declared.lexeme.Lexeme.TheVariants as lexeme;
ghost use Rattle.sparql_grammar_meaning.specs.declared.lexeme.Sign.TheVariants as signs;
ghost use Rattle.sparql_cursor.specs.Outcomes.{Gets, Stops};
ghost use Rattle.sparql_modifiers.specs.SliceSteps.{MaySlice, MaySliceStops};

use crate::next::after_count;
use sparql_cursor::{Refusal, after_sign};
use sparql_grammar_meaning::{Lexeme, Sign};

/// How many solutions are left out in front, and the greatest count of the others.
#[derive(Clone, Copy, Debug, PartialEq, Eq)]
pub struct Slice {
    pub skip: u64,
    pub most: Option<u64>,
}

// What stands behind a `LIMIT` that comes first.
#[tactic(auto, using(crate::specs::SliceSteps::limit_paths))]
fn read_limit(tokens: &[Lexeme]) -> Result<(Slice, &[Lexeme]), Refusal>
    ensures reads { IfOk result (λ r. Gets Slice_ (lexeme.Sign signs.Limit ∷ tokens.now) (a_cut (cut_of r.0.skip r.0.most)) r.1.now) }
    ensures shorter { IfOk result (λ r. length r.1.now < length tokens.now) }
    ensures refuses { IfErr result (λ e. Stops Slice_ (lexeme.Sign signs.Limit ∷ tokens.now) e) }
{
    let Some((_, most, rest)) = after_count(tokens) else {
        return Err(Refusal::Syntax { left: tokens.len() })
    };
    let most = Some(most);
    let Some(after) = after_sign(rest, Sign::Offset) else {
        return Ok((Slice { skip: 0, most }, rest))
    };
    match after_count(after) {
        Some((_, skip, rest)) => Ok((Slice { skip, most }, rest)),
        None => Err(Refusal::Syntax { left: after.len() }),
    }
}

// What stands behind an `OFFSET` that comes first.
#[tactic(auto, using(crate::specs::SliceSteps::offset_paths))]
fn read_offset(tokens: &[Lexeme]) -> Result<(Slice, &[Lexeme]), Refusal>
    ensures reads { IfOk result (λ r. Gets Slice_ (lexeme.Sign signs.Offset ∷ tokens.now) (a_cut (cut_of r.0.skip r.0.most)) r.1.now) }
    ensures shorter { IfOk result (λ r. length r.1.now < length tokens.now) }
    ensures refuses { IfErr result (λ e. Stops Slice_ (lexeme.Sign signs.Offset ∷ tokens.now) e) }
{
    let Some((_, skip, rest)) = after_count(tokens) else {
        return Err(Refusal::Syntax { left: tokens.len() })
    };
    let Some(after) = after_sign(rest, Sign::Limit) else {
        return Ok((Slice { skip, most: None }, rest))
    };
    match after_count(after) {
        Some((_, most, rest)) => Ok((
            Slice {
                skip,
                most: Some(most),
            },
            rest,
        )),
        None => Err(Refusal::Syntax { left: after.len() }),
    }
}

/// Reads a slice, if one begins here.
#[tactic(auto, using(crate::specs::SliceSteps::may_paths))]
pub fn read_may_slice(tokens: &[Lexeme]) -> Result<(Slice, &[Lexeme]), Refusal>
    ensures reads { IfOk result (λ r. MaySlice tokens.now (cut_of r.0.skip r.0.most) r.1.now) }
    ensures shorter { IfOk result (λ r. length r.1.now ≤ length tokens.now) }
    ensures refuses { IfErr result (λ e. MaySliceStops tokens.now e) }
{
    if let Some(rest) = after_sign(tokens, Sign::Limit) {
        let (slice, rest) = read_limit(rest)?;
        return Ok((slice, rest));
    }
    match after_sign(tokens, Sign::Offset) {
        Some(rest) => {
            let (slice, rest) = read_offset(rest)?;
            Ok((slice, rest))
        }
        None => Ok((
            Slice {
                skip: 0,
                most: None,
            },
            tokens,
        )),
    }
}
